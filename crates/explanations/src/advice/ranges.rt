//! Which number of a header is out of its range.

use crate::advice::sentence::some_sentence;
use std::alloc::{AllocError, Global};

/// The greatest number of a logical channel.
const CHANNELS: u32 = 4095;

/// The numbers of a header; those that its form does not have are 0.
#[derive(Clone, Copy)]
pub struct Numbers {
    modulus: u32,
    window: u32,
    size: u32,
    pvc: u32,
    incoming: u32,
    two_way: u32,
    outgoing: u32,
    svc: u32,
}

impl Numbers {
    /// Returns numbers that are all 0.
    pub fn none() -> Self {
        Numbers {
            modulus: 0,
            window: 0,
            size: 0,
            pvc: 0,
            incoming: 0,
            two_way: 0,
            outgoing: 0,
            svc: 0,
        }
    }

    /// Keeps the number after a name of the header.
    pub fn put(&mut self, name: &str, number: u32) {
        match name {
            "MOD" => self.modulus = number,
            "WIN" => self.window = number,
            "SIZE" => self.size = number,
            "PVC" => self.pvc = number,
            "IN" => self.incoming = number,
            "TWO" => self.two_way = number,
            "OUT" => self.outgoing = number,
            _ => self.svc = number,
        }
    }
}

/// Returns what is wrong with a number that lies outside a range, if it does.
fn bounds_advice(
    alloc: Global,
    name: &str,
    number: u32,
    least: u32,
    most: u32,
) -> Result<Option<String>, AllocError> {
    if least <= number && number <= most {
        return Ok(None);
    }
    some_sentence(if least == most {
        format!(in alloc; "The header's {name} is {number}: {most} belongs there.")
    } else {
        format!(in alloc; "The header's {name} is {number}: {least} to {most} belongs there.")
    })
}

/// Returns what is wrong with the numbering and the packet size, if something is.
fn defaults_advice(alloc: Global, numbers: &Numbers) -> Result<Option<String>, AllocError> {
    let modulus = numbers.modulus;
    if modulus != 8 && modulus != 128 {
        return some_sentence(format!(in alloc;
            "The header's MOD is {modulus}: 8 or 128 belongs there."
        ));
    }
    let size = numbers.size;
    if !size.is_power_of_two() || size < 16 || size > 4096 {
        return some_sentence(format!(in alloc;
            "The header's SIZE is {size}: a power of two from 16 to 4096 belongs there."
        ));
    }
    bounds_advice(alloc, "WIN", numbers.window, 1, modulus.saturating_sub(1))
}

/// Returns what is wrong with the channels of the first form, if something is.
fn first_form_advice(alloc: Global, numbers: &Numbers) -> Result<Option<String>, AllocError> {
    match bounds_advice(alloc, "SVC", numbers.svc, 1, CHANNELS) {
        Ok(None) => bounds_advice(alloc, "PVC", numbers.pvc, 0, numbers.svc),
        advice => advice,
    }
}

/// Returns what is wrong with the channels of the second form, if something is.
fn second_form_advice(alloc: Global, numbers: &Numbers) -> Result<Option<String>, AllocError> {
    match bounds_advice(alloc, "OUT", numbers.outgoing, 1, CHANNELS) {
        Ok(None) => match bounds_advice(alloc, "TWO", numbers.two_way, 0, numbers.outgoing) {
            Ok(None) => incoming_advice(alloc, numbers),
            advice => advice,
        },
        advice => advice,
    }
}

/// Returns what is wrong with the channels of incoming calls and the permanent ones of the second form, if something is.
fn incoming_advice(alloc: Global, numbers: &Numbers) -> Result<Option<String>, AllocError> {
    match bounds_advice(alloc, "IN", numbers.incoming, 0, numbers.two_way) {
        Ok(None) => bounds_advice(alloc, "PVC", numbers.pvc, 0, numbers.incoming),
        advice => advice,
    }
}

/// Returns what is wrong with the numbers of a header of the first or the second form, if one is out of its range.
pub fn range_advice(
    alloc: Global,
    numbers: &Numbers,
    is_second: bool,
) -> Result<Option<String>, AllocError> {
    match defaults_advice(alloc, numbers) {
        Ok(None) if is_second => second_form_advice(alloc, numbers),
        Ok(None) => first_form_advice(alloc, numbers),
        advice => advice,
    }
}

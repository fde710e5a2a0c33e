//! A box as its pointer, or nothing.
ghost use Rattle.std.specs.Coded.{coded_option};
ghost use Rattle.std.specs.Prelude.{◌≡◌, Option, Some, None};
ghost use Rattle.x25scan_c.specs.Owning.{loose_owns};
ghost use Rattle.x25scan_c.specs.declared.scanning.Scanning.{Scanning};
ghost use Rattle.x25scan_c.specs.Owning.{chunk};
ghost use Rattle.x25scan_c.specs.contracts.scanning.Scanning.{the_row};

use crate::loose::Loose;
use crate::scanning::Scanning;
use std::alloc::Global;
use std::marker::Model;
use std::ptr::null_mut;

#[repr(C)]
#[derive(Drop)]
pub struct Handle {
    at: *mut u8,
    ghost value: { Option Scanning } by { coded_option the_row.coded },
}

impl Model for Handle {
    ghost also_owns = { λ h. loose_owns chunk the_row h.at h.value };
}

impl Handle {
    /// Returns a handle that holds nothing.
    pub(crate) fn none() -> Handle
        ensures { result.value ≡ None }
    {
        Handle { at: null_mut() }
    }

    /// Returns a handle that holds the value of a loose box.
    pub(crate) fn holding(loose: Loose<Scanning, Global>) -> Handle
        ensures { result.value ≡ Some loose.value }
    {
        let Loose { at, alloc: _ } = loose;
        Handle { at: at as *mut u8 }
    }

    /// Returns the loose box of the value that it holds.
    pub(crate) fn into_loose(self, alloc: Global) -> Loose<Scanning, Global>
        requires { ¬ (self.value ≡ None) }
        ensures { Some result.value ≡ self.value }
    {
        let Handle { at } = self;
        Loose {
            at: at as *mut Scanning,
            alloc,
        }
    }
}

//! A plant that a C caller holds over many calls.

ghost use Rattle.std.specs.Prelude.{◌≡◌, Option, Some, None};
ghost use Rattle.std.specs.Option.{option_map};
ghost use Rattle.std.specs.Coded.{coded_option};
ghost use Rattle.magbelu_c.specs.Handles.{Kept, holds, kept_code};

use crate::any_plant::AnyPlant;
use crate::loose::Loose;
use std::alloc::Global;
use std::marker::Model;
use std::mem::replace;
use std::ptr::null_mut;

/// Stands for a plant in the memory of a caller. The plant is the library's. Contracts see it, if one is held.
#[repr(C)]
#[derive(Drop)]
pub struct Handle {
    at: *mut u8,
    is_open: bool,
    pub ghost plant: { Option Kept } by { coded_option kept_code },
}

impl Model for Handle {
    ghost also_owns = { λ h. holds h.is_open h.at h.plant };
}

impl Handle {
    // A handle of no plant.
    fn closed() -> Handle
        ensures { result.plant ≡ None }
    {
        Handle {
            at: null_mut(),
            is_open: false,
        }
    }

    // The handle of a plant.
    fn of(plant: Loose<AnyPlant, Global>) -> Handle
        ensures { result.plant ≡ Some plant.value }
    {
        let Loose { at, alloc: _ } = plant;
        Handle {
            at: at as *mut u8,
            is_open: true,
        }
    }

    // The plant of a handle.
    fn into_loose(self, alloc: Global) -> Option<Loose<AnyPlant, Global>>
        ensures { option_map (λ loose. loose.value) result ≡ self.plant }
    {
        let Handle { at, is_open } = self;
        if is_open {
            Some(Loose {
                at: at as *mut AnyPlant,
                alloc,
            })
        } else {
            None
        }
    }

    /// Takes the plant out, if one is held.
    pub(crate) fn take(&mut self, alloc: Global) -> Option<Box<AnyPlant>>
        ensures taken { option_map (λ plant. plant.value) result ≡ self.old.plant }
        ensures closed { self.new.plant ≡ None }
    {
        match replace(self, Handle::closed()).into_loose(alloc) {
            Some(plant) => Some(plant.into_box()),
            None => None,
        }
    }

    /// Puts a plant in. One that was held before would be lost.
    pub(crate) fn put(&mut self, plant: Box<AnyPlant>)
        requires { self.old.plant ≡ None }
        ensures { self.new.plant ≡ Some plant.value }
    {
        *self = Handle::of(Loose::of(plant));
    }
}

// What C holds.
ghost use Rattle.std.specs.Prelude.{◌≡◌, Option, Some, None, IfSome, IfNone, MatchOption};
ghost use Rattle.lt_live_c.specs.declared.content.Content.{Content as ContentData};
ghost use Rattle.lt_live_c.specs.Handles.{handle_owns, handle_coded};

use crate::content::Content;
use crate::parts::Parts;
use std::alloc::Global;
use std::marker::Model;
use std::ptr::null_mut;

/// A pointer to a box of its own, or null where it stands for nothing.
#[repr(C)]
#[derive(Drop)]
pub struct Handle {
    at: *mut u8,
    alloc: Global,
    pub ghost value: { Option ContentData } by { handle_coded },
}

impl Model for Handle {
    ghost also_owns = { λ h. handle_owns h.alloc h.at h.value };
}

impl Handle {
    pub fn of(content: Box<Content>) -> Handle
        ensures { result.value ≡ Some content.value }
    {
        Handle::of_parts(Parts::of(content))
    }

    /// The box, if it stands for something.
    pub fn into_box(self) -> Option<Box<Content>>
        ensures some { IfSome result (λ inside. self.value ≡ Some inside.value) }
        ensures none { IfNone result (self.value ≡ None) }
    {
        match self.into_parts() {
            Some(parts) => Some(parts.into_box()),
            None => None,
        }
    }

    fn of_parts(parts: Parts<Content, Global>) -> Handle
        ensures { result.value ≡ Some parts.value }
    {
        let Parts { ptr, alloc } = parts;
        Handle {
            at: ptr as *mut u8,
            alloc,
        }
    }

    fn into_parts(self) -> Option<Parts<Content, Global>>
        ensures { MatchOption result (self.value ≡ None) (λ parts. self.value ≡ Some parts.value) }
    {
        let Handle { at, alloc } = self;
        if at.is_null() {
            None
        } else {
            Some(Parts {
                ptr: at as *mut Content,
                alloc,
            })
        }
    }

    pub fn nothing(alloc: Global) -> Handle
        ensures { result.value ≡ None }
    {
        Handle {
            at: null_mut(),
            alloc,
        }
    }
}

// C may hand a handle from one thread to another.
unsafe impl Send for Handle {}

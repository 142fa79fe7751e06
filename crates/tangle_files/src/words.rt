//! The names of the files that have roles, as they were given.
ghost use Rattle.std.specs.Prelude.{◌≡◌};
ghost use Rattle.std.specs.Option.{option_copied, option_map};
ghost use Rattle.tangle_files.specs.Roles.{roles_of};

use crate::marks::MarkMode;
use std::marker::Model;

/// The names of the web, of the change file if there is one, and of the main output file, and how
/// line marks are written. The names are not checked; those in [`Roles`](crate::Roles) are known
/// to be file names.
#[derive(Drop)]
pub struct Words {
    web: Vec<u8>,
    change: Option<Vec<u8>>,
    out: Vec<u8>,
    marks: MarkMode,
}

impl Model for Words {
    ghost use Rattle.std.specs.Option.{option_map};
    ghost use Rattle.tangle_files.specs.Roles.{RolesRead};

    ghost Value = { RolesRead };

    ghost view = { λ w. record {
      web = w.web.items;
      change =
          option_map (λ c. c.items) w.change;
      out = w.out.items;
      marks = w.marks;
    } };
}

impl Words {
    /// Keeps these names, unchecked. Line marks are written in full.
    pub fn new(web: Vec<u8>, change: Option<Vec<u8>>, out: Vec<u8>) -> Self
        ensures { result ≡ roles_of web.items (option_map (λ c. c.items) change) out.items }
    {
        Words {
            web,
            change,
            out,
            marks: MarkMode::Full,
        }
    }

    /// The name of the web.
    pub fn web(&self) -> &[u8]
        ensures { result.now ≡ self.now.web }
    {
        self.web.as_slice()
    }

    /// The name of the change file: `None` if there is none.
    pub fn change(&self) -> Option<&[u8]>
        ensures { option_copied result ≡ self.now.change }
    {
        match &self.change {
            Some(name) => Some(name.as_slice()),
            None => None,
        }
    }

    /// The name of the main output file.
    pub fn out(&self) -> &[u8]
        ensures { result.now ≡ self.now.out }
    {
        self.out.as_slice()
    }

    /// How line marks are written.
    pub fn marks(&self) -> MarkMode
        ensures { result ≡ self.now.marks }
    {
        self.marks
    }

    /// Sets how line marks are written from now on.
    pub(crate) fn set_marks(&mut self, marks: MarkMode)
        ensures { self.new ≡ record self.old { marks = marks } }
    {
        self.marks = marks;
    }
}

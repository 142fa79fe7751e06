//! The full names of a web, shared with its table.
ghost use Rattle.std.specs.Prelude.{◌≡◌, ◌<◌, [], IfOk, length, position};
ghost use Rattle.std.specs.Prelude.{slice_index_or};
ghost use Rattle.std.specs.Str.{bytes_eq};

use crate::keys::find;
use crate::resolution::Resolution;
use std::marker::Model;
use std::rc::Rc;
use tangle_lines::NoMemory;

/// The full names of a web, by number. They are shared with the table, so that their bytes are
/// stored once.
#[derive(Drop)]
pub struct Names {
    resolution: Rc<Resolution>,
}

impl Model for Names {
    ghost use Rattle.std.specs.Prelude.{List};
    ghost use Rattle.tangle_names.specs.Names.{NameText};

    ghost Value = { List NameText };

    ghost view = { λ n. n.resolution.value.names.keys };
}

impl Names {
    /// The names of a resolution.
    pub(crate) fn new(resolution: Rc<Resolution>) -> Names
        ensures { result ≡ resolution.value.names.keys }
    {
        Names { resolution }
    }

    /// Shares the names.
    ///
    /// # Errors
    ///
    /// `NoMemory` where the counter of shares is full.
    pub fn share(&self) -> Result<Names, NoMemory>
        ensures { IfOk result (λ names. names ≡ self.now) }
    {
        Ok(Names::new(self.resolution.clone()?))
    }

    /// The number of names.
    pub fn count(&self) -> usize
        ensures { result ≡ length self.now }
    {
        self.resolution.names.len()
    }

    /// The text of the name with this number.
    pub fn text(&self, id: usize) -> &[u8]
        requires { id < length self.now }
        ensures { result.now ≡ slice_index_or self.now id [] }
    {
        self.resolution.names.as_slice()[id].bytes()
    }

    /// The number of the name with this text, if there is one.
    pub fn find(&self, text: &[u8]) -> Option<usize>
        ensures { result ≡ position (bytes_eq text.now) self.now }
    {
        find(&self.resolution.names, text)
    }
}

//! The names in a directory, in little memory. A clause sees them as a list.
ghost use Rattle.std.specs.Prelude.{◌≡◌, ◌∷◌, [], ◌++◌, OnOk, OnErr};

use jwalk_model::file_type::FileType;
use std::alloc::{AllocError, Global};
use std::marker::Model;

/// How many bytes of a text are a name, and the type of what has it.
#[derive(Clone, Copy)]
pub struct Piece {
    len: usize,
    file_type: FileType,
}

/// Names, each with the type of what has it, in the order in which they were added: one text for all of them, and of
/// each how long it is.
#[derive(Drop)]
pub struct Names {
    text: String,
    pieces: Vec<Piece>,
}

impl Model for Names {
    ghost use Rattle.std.specs.Prelude.{List, string_bytes};
    ghost use Rattle.jwalk_indexed_fs.specs.Name.{Name};

    ghost Value = { List Name };

    ghost use Rattle.jwalk_indexed_fs.specs.Names.{names_in, IsCut};

    ghost view = { λ names. names_in (string_bytes names.text) names.pieces.items };

    ghost invariant = { λ names. IsCut (string_bytes names.text) names.pieces.items };
}

impl Names {
    /// Returns no names.
    pub fn new(alloc: Global) -> Self
        ensures { result ≡ [] }
    {
        Names {
            text: String::new(alloc),
            pieces: Vec::new(alloc),
        }
    }

    /// Adds a name behind the others.
    ///
    /// # Errors
    ///
    /// If memory runs out. The names are unchanged then.
    pub fn push(&mut self, name: &str, file_type: FileType) -> Result<(), AllocError>
        ensures added { OnOk result (self.new ≡ self.old ++ record { name = name.now; file_type = file_type } ∷ []) }
        ensures unchanged { OnErr result (self.new ≡ self.old) }
    {
        self.pieces.reserve(1)?;
        self.text.push_str(name)?;
        self.pieces.push(Piece {
            len: name.len(),
            file_type,
        })?;
        Ok(())
    }

    /// Returns the names, each with its type.
    pub fn iter(&self) -> NamesIter<'_>
        ensures { result ≡ self.now }
    {
        NamesIter {
            text: self.text.as_str(),
            pieces: self.pieces.as_slice(),
        }
    }
}

/// The names that are left, each with its type.
#[derive(Drop)]
pub struct NamesIter<'a> {
    text: &'a str,
    pieces: &'a [Piece],
}

impl<'a> Model for NamesIter<'a> {
    ghost use Rattle.std.specs.Prelude.{List};
    ghost use Rattle.jwalk_indexed_fs.specs.Name.{Name};

    ghost Value = { List Name };

    ghost use Rattle.jwalk_indexed_fs.specs.Names.{names_in, IsCut};

    ghost view = { λ left. names_in left.text.now left.pieces.now };

    ghost invariant = { λ left. IsCut left.text.now left.pieces.now };
}

impl<'a> Iterator for NamesIter<'a> {
    type Item = (&'a str, FileType);

    ghost use Rattle.std.specs.Iterator.{YieldsFirstBy, item_count};

    ghost next_gives = { YieldsFirstBy (λ item. record { name = item.0.now; file_type = item.1 }) (λ left. left) };

    ghost remaining = { item_count (λ left. left) };

    fn next(&mut self) -> Option<(&'a str, FileType)> {
        let (piece, others) = self.pieces.split_first()?;
        let (name, rest) = self.text.split_at(piece.len);
        self.text = rest;
        self.pieces = others;
        Some((name, piece.file_type))
    }
}

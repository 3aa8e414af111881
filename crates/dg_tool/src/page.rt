//! The lines that are to be printed, of a bounded size together.
ghost use Rattle.std.specs.Prelude.{◌≡◌, [], ◌∷◌, ◌++◌, Ok};
ghost use Rattle.std.specs.Option.{option_to_list, option_map};
ghost use Rattle.dg_base.specs.Refusal.{Gives};
ghost use Rattle.dg_tool.specs.Seen.{fitting_pieces, plain};

use crate::halt::{Halt, Limit};
use crate::piece::{Piece, Pieces};
use crate::size::MAX_TEXT;
use dg_base::Refusal;
use dg_files::Bytes;
use std::alloc::Global;
use std::marker::Model;

/// The lines so far, with what is written before each, and how many bytes there is room for behind them.
#[derive(Drop)]
pub(crate) struct Page {
    pieces: Pieces,
    room: usize,
}

impl Model for Page {
    ghost use Rattle.std.specs.Prelude.{◌≡◌, ℕ, ◌+◌, List, length, map};
    ghost use Rattle.dg_deeds.specs.Printed.{text_of};
    ghost use Rattle.std.specs.Coded.{coded_list};
    ghost use Rattle.dg_tool.specs.Seen.{line_in, piece_code};
    ghost use Rattle.dg_tool.specs.Text.{max_text};
    ghost use Rattle.dg_tool.specs.declared.piece.Piece.{Piece};

    ghost Value = { List Piece };

    ghost coded = { coded_list piece_code };

    ghost view = { λ p. p.pieces.items };

    ghost invariant = { λ p. p.room + length (text_of (map line_in p.pieces.items)) ≡ max_text };
}

impl Page {
    pub(crate) fn new(alloc: Global) -> Page
        ensures { result ≡ [] }
    {
        Page {
            pieces: Vec::new(alloc),
            room: MAX_TEXT,
        }
    }

    /// Puts a line behind the others. Refused where with it all lines have more bytes than are printed.
    pub(crate) fn put(&mut self, piece: Piece) -> Result<(), Refusal<Halt>>
        ensures { Gives (λ _. self.new) result (fitting_pieces (self.old ++ piece ∷ [])) }
    {
        let Some(room) = self.room.checked_sub(piece.line.len()) else {
            return Err(Refusal::Because(Halt::TooLarge(Limit::Text)));
        };
        self.pieces.push(piece)?;
        self.room = room;
        Ok(())
    }

    /// Puts a line before which nothing is written, as [`Page::put`] does, where there is one.
    pub(crate) fn put_some(&mut self, line: Option<Bytes>) -> Result<(), Refusal<Halt>>
        ensures { Gives (λ _. self.new) result (fitting_pieces (self.old ++ option_to_list (option_map plain line))) }
    {
        let _ = &self.pieces;
        match line {
            Some(line) => self.put(Piece::plain(line)),
            None => Ok(()),
        }
    }

    /// All of them fit.
    pub(crate) fn is_fitting(&self)
        ensures { fitting_pieces self.now ≡ Ok self.now }
    {
        let _ = &self.pieces;
    }

    pub(crate) fn into_pieces(self) -> Pieces
        ensures { fitting_pieces self ≡ Ok result.items }
    {
        let Page { pieces, .. } = self;
        pieces
    }
}

//! Rows with aligned columns.

use crate::text::names::escaped_name;
use crate::text::written::Text;
use std::alloc::{AllocError, Global};
use std::mem::replace;

/// The widest cell to which a column is padded, so that one long text does not widen all rows.
const MAX_WIDTH: usize = 60;

/// Rows of texts, one for each column. That memory was refused is told by the text to which they are
/// added.
#[derive(Drop)]
pub(crate) struct Rows {
    alloc: Global,
    rows: Vec<Vec<String>>,
    /// The row to which cells are added.
    row: Vec<String>,
    widths: Vec<usize>,
    is_refused: bool,
}

impl Rows {
    /// Rows below this header.
    pub(crate) fn below(alloc: Global, heads: &[&str]) -> Rows {
        let mut rows = Rows {
            alloc,
            rows: Vec::new(alloc),
            row: Vec::new(alloc),
            widths: Vec::new(alloc),
            is_refused: false,
        };
        for head in heads {
            rows.word(head);
        }
        rows.end_row();
        rows
    }

    /// What cells take memory from.
    pub(crate) fn alloc(&self) -> Global {
        self.alloc
    }

    /// Adds a cell to the row.
    pub(crate) fn cell(&mut self, text: Result<String, AllocError>) {
        let added = match text {
            Ok(text) => self.push(text),
            Err(error) => Err(error),
        };
        self.is_refused |= added.is_err();
    }

    /// Adds a cell with this word.
    pub(crate) fn word(&mut self, word: &str) {
        self.cell(String::from_str(self.alloc, word));
    }

    /// Adds a cell with this escaped name.
    pub(crate) fn name(&mut self, name: &[u8]) {
        self.cell(escaped_name(self.alloc, name));
    }

    /// Adds a cell with this number.
    pub(crate) fn number(&mut self, number: u64) {
        self.cell(format!(in self.alloc; "{number}"));
    }

    fn push(&mut self, cell: String) -> Result<(), AllocError> {
        let wide = width_of(&cell).min(MAX_WIDTH);
        match self.widths.get_mut(self.row.len()) {
            Some(width) => *width = (*width).max(wide),
            None => self.widths.push(wide)?,
        }
        self.row.push(cell).map_err(AllocError::from)
    }

    /// Begins another row.
    pub(crate) fn end_row(&mut self) {
        let row = replace(&mut self.row, Vec::new(self.alloc));
        let added = self.rows.push(row);
        self.is_refused |= added.is_err();
    }

    /// Adds the rows to a text, one per line. A column begins two spaces after the widest text of
    /// the column before it, but texts of more than 60 columns do not widen theirs. An empty column
    /// takes no room, and a line has no trailing spaces.
    pub(crate) fn write(&self, text: &mut Text) {
        if self.is_refused {
            text.refuse();
        }
        for row in &self.rows {
            self.write_row(text, row);
        }
    }

    fn write_row(&self, text: &mut Text, row: &[String]) {
        let mut owed = 0usize;
        for (cell, width) in row.iter().zip(&self.widths) {
            if !cell.is_empty() {
                for _ in 0..owed {
                    text.push(' ');
                }
                text.push_str(cell);
                owed = 0;
            }
            if *width > 0 {
                let rest = width.saturating_sub(width_of(cell));
                owed = owed.saturating_add(rest).saturating_add(2);
            }
        }
        text.push('\n');
    }
}

/// How many columns a text takes.
fn width_of(cell: &str) -> usize {
    cell.chars().count()
}

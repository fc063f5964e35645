//! Text in columns.

use std::alloc::{AllocError, Global};

/// The cells of a line.
pub(crate) type Row = Vec<Vec<u8>>;

// So many first columns, and the last one, are aligned left. The others are numbers, and are aligned right.
const LEFT: usize = 2;

/// Lines in columns. Each column is as wide as its widest cell.
#[derive(Drop)]
pub(crate) struct Table {
    widths: Vec<usize>,
    rows: Vec<Row>,
}

impl Table {
    /// A table of one line.
    pub(crate) fn new(alloc: Global, heads: &[&str]) -> Result<Table, AllocError> {
        let mut row = Vec::with_capacity(alloc, heads.len())?;
        for head in heads {
            row.push(Vec::from_slice(alloc, head.as_bytes())?)?;
        }
        let mut table = Table {
            widths: vec![in alloc; 0; heads.len()]?,
            rows: Vec::new(alloc),
        };
        table.push(row)?;
        Ok(table)
    }

    /// Adds a line.
    pub(crate) fn push(&mut self, row: Row) -> Result<(), AllocError> {
        for (width, cell) in self.widths.iter_mut().zip(&row) {
            *width = cell.len().max(*width);
        }
        self.rows.push(row)?;
        Ok(())
    }

    /// Writes all lines.
    pub(crate) fn write(&self, out: &mut Vec<u8>) -> Result<(), AllocError> {
        for row in &self.rows {
            self.write_row(out, row)?;
        }
        Ok(())
    }

    fn write_row(&self, out: &mut Vec<u8>, row: &[Vec<u8>]) -> Result<(), AllocError> {
        let last = self.widths.len().saturating_sub(1);
        for (number, (cell, width)) in row.iter().zip(&self.widths).enumerate() {
            if number == last {
                out.extend_from_slice(cell)?;
            } else if number < LEFT {
                out.extend_from_slice(cell)?;
                push_blanks(out, width.saturating_sub(cell.len()))?;
                push_blanks(out, 2)?;
            } else {
                push_blanks(out, width.saturating_sub(cell.len()))?;
                out.extend_from_slice(cell)?;
                push_blanks(out, 2)?;
            }
        }
        out.push(b'\n')?;
        Ok(())
    }
}

fn push_blanks(out: &mut Vec<u8>, count: usize) -> Result<(), AllocError> {
    for _ in 0..count {
        out.push(b' ')?;
    }
    Ok(())
}

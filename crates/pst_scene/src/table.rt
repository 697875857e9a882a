//! Cells in columns, and how their text is shown on a terminal.

use crate::page::Page;
use std::alloc::{AllocError, Global};

/// The number of spaces between two columns.
const GAP: usize = 3;

/// If cells have to be cut, a table has columns only if each column may have this many bytes.
const LEAST_COLUMN: usize = 30;

/// Room for the text of a small table, in bytes.
const USUAL_TEXT: usize = 128;

/// Room for the cells of a small table.
const USUAL_CELLS: usize = 8;

/// A text in a column.
#[derive(Drop)]
pub struct Cell {
    pub text: Vec<u8>,
    pub style: Style,
}

impl Cell {
    /// A cell of plain text.
    pub fn plain(text: Vec<u8>) -> Cell {
        Cell {
            text,
            style: Style::Plain,
        }
    }

    /// A cell of text in a style.
    pub fn styled(style: Style, text: Vec<u8>) -> Cell {
        Cell { text, style }
    }
}

/// The end of a cell of a table.
#[derive(Clone, Copy, Drop)]
struct CellEnd {
    /// The offset in the text of the table after the last byte of the cell.
    end: usize,
    /// The cell's column, from 0.
    column: usize,
    style: Style,
}

/// Rows of cells. Each row has a cell.
#[derive(Drop)]
pub struct Table {
    /// The texts of the cells, one after another, and that of a cell that has not ended.
    pub text: Vec<u8>,
    cells: Vec<CellEnd>,
    /// The width of the widest cell of each column.
    widths: Vec<usize>,
    /// The end of the last cell in `text`.
    end: usize,
    /// The column of the next cell.
    column: usize,
}

/// A row of two cells of plain text.
pub fn row_of_two_plain_cells(
    alloc: Global,
    first: Vec<u8>,
    second: Vec<u8>,
) -> Result<Vec<Cell>, AllocError> {
    let mut row = Vec::new(alloc);
    row.push(Cell::plain(first))?;
    row.push(Cell::plain(second))?;
    Ok(row)
}

/// The sum of the numbers.
fn sum_of_widths(numbers: &[usize]) -> usize {
    let mut sum = 0usize;
    for number in numbers {
        sum = sum.saturating_add(*number);
    }
    sum
}

/// Returns the sum of the widths that are at most `share`, and how many are greater.
fn sum_small_and_count_large(widths: &[usize], share: usize) -> (usize, usize) {
    let mut sum = 0usize;
    let mut large = 0usize;
    for width in widths {
        if *width <= share {
            sum = sum.saturating_add(*width);
        } else {
            large = large.saturating_add(1);
        }
    }
    (sum, large)
}

/// Returns the widths of columns that may have `room` bytes together. Each column that needs at most an equal share
/// keeps its width, and the others share the rest equally.
fn fit_column_widths(
    alloc: Global,
    widths: &[usize],
    room: usize,
) -> Result<Vec<usize>, AllocError> {
    let share = room.checked_div(widths.len()).unwrap_or(0);
    let (sum, large) = sum_small_and_count_large(widths, share);
    let most = room.saturating_sub(sum).checked_div(large).unwrap_or(0);
    let mut fitted = Vec::new(alloc);
    for width in widths {
        fitted.push(if *width <= share {
            *width
        } else {
            (*width).min(most)
        })?;
    }
    Ok(fitted)
}

/// Returns how many bytes `columns` columns may have together.
fn room_for_table_columns(page: &Page, indent: usize, columns: usize) -> usize {
    let gaps = GAP.saturating_mul(columns.saturating_sub(1));
    page.width.saturating_sub(indent).saturating_sub(gaps)
}

/// Begins the line of a row on a page, after the end of the line before if there is one.
fn begin_row(page: &mut Page, indent: usize, is_first: bool) -> Result<(), AllocError> {
    if !is_first {
        page.text.push(b'\n')?;
    }
    page.add_spaces(indent)
}

/// Adds the text of a cell to a page after `gap` spaces, cut to `width`, and returns how many bytes of it there are.
fn add_cell_text(
    page: &mut Page,
    alloc: Global,
    gap: usize,
    style: Style,
    text: &[u8],
    width: usize,
) -> Result<usize, AllocError> {
    page.add_spaces(gap)?;
    page.add_text_cut_to_width(alloc, style, text, width)
}

impl Table {
    /// No rows.
    pub fn new(alloc: Global) -> Result<Table, AllocError> {
        Ok(Table {
            text: Vec::with_capacity(alloc, USUAL_TEXT)?,
            cells: Vec::with_capacity(alloc, USUAL_CELLS)?,
            widths: Vec::new(alloc),
            end: 0,
            column: 0,
        })
    }

    /// Ends a cell: its text is what was added to `text` after the cell before.
    pub fn end_cell(&mut self, style: Style) -> Result<(), AllocError> {
        let end = self.text.len();
        let width = end.saturating_sub(self.end);
        let column = self.column;
        if let Some(widest) = self.widths.get_mut(column) {
            if *widest < width {
                *widest = width;
            }
        } else {
            self.widths.push(width)?;
        }
        self.cells.push(CellEnd { end, column, style })?;
        self.end = end;
        self.column = column.saturating_add(1);
        Ok(())
    }

    /// Ends a row, which has the cells that ended after the row before.
    pub fn end_row(&mut self) {
        self.column = 0;
    }

    /// Adds a row.
    pub fn add_row(&mut self, row: Vec<Cell>) -> Result<(), AllocError> {
        for cell in &row {
            self.text.extend_from_slice(cell.text.as_slice())?;
            self.end_cell(cell.style)?;
        }
        self.end_row();
        Ok(())
    }

    /// Returns whether no cell has to be cut, or each column may have `least` bytes.
    pub fn has_wide_enough_columns(&self, page: &Page, indent: usize, least: usize) -> bool {
        let room = room_for_table_columns(page, indent, self.widths.len());
        let share = room.checked_div(self.widths.len()).unwrap_or(0);
        sum_of_widths(self.widths.as_slice()) <= room || least <= share
    }

    /// The text of a cell that begins at `begin`.
    fn text_of_cell(&self, begin: usize, cell: &CellEnd) -> &[u8] {
        self.text.as_slice().get(begin..cell.end).unwrap_or(&[])
    }

    /// Adds each cell to a page on a line of its own, with a deeper indent for the cells of a row after its first.
    fn write_stacked(
        &self,
        page: &mut Page,
        alloc: Global,
        indent: usize,
    ) -> Result<(), AllocError> {
        let mut begin = 0usize;
        for cell in &self.cells {
            let further = if cell.column == 0 { 0 } else { 2 };
            page.add_styled_line(
                alloc,
                indent.saturating_add(further),
                cell.style,
                self.text_of_cell(begin, cell),
            )?;
            begin = cell.end;
        }
        Ok(())
    }

    /// Adds the rows to a page in columns if these are wide enough, or else each cell on a line of its own.
    pub fn write_in_columns_or_stacked(
        &self,
        page: &mut Page,
        alloc: Global,
        indent: usize,
    ) -> Result<(), AllocError> {
        if self.has_wide_enough_columns(page, indent, LEAST_COLUMN) {
            self.write_in_columns_cut_to_fit(page, alloc, indent)
        } else {
            self.write_stacked(page, alloc, indent)
        }
    }

    /// Adds the rows to a page in columns. Cells that do not fit are cut in the middle.
    pub fn write_in_columns_cut_to_fit(
        &self,
        page: &mut Page,
        alloc: Global,
        indent: usize,
    ) -> Result<(), AllocError> {
        let widths = self.widths.as_slice();
        let room = room_for_table_columns(page, indent, widths.len());
        if sum_of_widths(widths) <= room {
            return self.write_columns_of_widths(page, alloc, indent, widths);
        }
        let widths = fit_column_widths(alloc, widths, room)?;
        self.write_columns_of_widths(page, alloc, indent, widths.as_slice())
    }

    /// Adds the rows to a page, each cell cut to the width of its column, with spaces up to the next. No spaces come
    /// after the last cell of a row that is not empty.
    fn write_columns_of_widths(
        &self,
        page: &mut Page,
        alloc: Global,
        indent: usize,
        widths: &[usize],
    ) -> Result<(), AllocError> {
        let mut begin = 0usize;
        let mut column = 0usize;
        let mut wanted = 0usize;
        for (index, cell) in self.cells.iter().enumerate() {
            if cell.column == 0 {
                begin_row(page, indent, index == 0)?;
                column = 0;
                wanted = 0;
            }
            let text = self.text_of_cell(begin, cell);
            let width = widths.get(cell.column).copied().unwrap_or(0);
            if !text.is_empty() {
                let gap = wanted.saturating_sub(column);
                let count = add_cell_text(page, alloc, gap, cell.style, text, width)?;
                column = wanted.saturating_add(count);
            }
            wanted = wanted.saturating_add(width).saturating_add(GAP);
            begin = cell.end;
        }
        if !self.cells.is_empty() {
            page.text.push(b'\n')?;
        }
        Ok(())
    }
}

/// How a text is shown on a terminal.
#[derive(Clone, Copy, Debug, PartialEq, Eq, Drop)]
pub enum Style {
    /// As all other text.
    Plain,
    /// As something that is wrong: in red.
    Wrong,
    /// As something that would be right: in green.
    Right,
}

/// What ends a text that is not plain.
pub(crate) const END: &str = "\x1b[0m";

impl Style {
    /// What begins a text, which `END` ends; nothing if it is plain.
    pub(crate) fn terminal_start_code(self) -> Option<&'static str> {
        match self {
            Style::Plain => None,
            Style::Wrong => Some("\x1b[31m"),
            Style::Right => Some("\x1b[32m"),
        }
    }
}

//! Where things lie on the page, in pixels from its left upper corner.

use crate::scene::{Column, GridCell, Scene};

/// What is free at each edge of the page.
pub(crate) const MARGIN: u64 = 16;

/// From one column to the next.
pub(crate) const COLUMN: u64 = 116;

/// What a gap of views adds between two columns.
pub(crate) const GAP: u64 = 44;

/// The size of a block.
pub(crate) const BLOCK_WIDTH: u64 = 90;

pub(crate) const BLOCK_HEIGHT: u64 = 64;

/// From one row to the next: a block, and the word above it.
pub(crate) const ROW: u64 = 96;

/// The lines above the columns.
pub(crate) const HEAD: u64 = 78;

/// The line with the views, and what is free below it.
pub(crate) const AXIS: u64 = 44;

/// The line above the culprits' votes.
pub(crate) const LANES_HEAD: u64 = 34;

/// The votes of a culprit.
pub(crate) const LANE: u64 = 64;

/// The legend.
pub(crate) const LEGEND: u64 = 150;

/// A line of small print.
pub(crate) const SMALL_LINE: u64 = 18;

/// The page is no narrower than the lines above and below the columns are.
const LEAST_WIDTH: u64 = 900;

fn times(count: usize, each: u64) -> u64 {
    each.saturating_mul(count as u64)
}

/// Where everything lies.
#[derive(Clone, Copy)]
pub(crate) struct Layout<'s> {
    scene: &'s Scene,
}

impl<'s> Layout<'s> {
    pub fn of(scene: &'s Scene) -> Layout<'s> {
        Layout { scene }
    }

    // The left edge of the blocks of a column.
    fn left_of(&self, index: usize, column: &Column) -> u64 {
        MARGIN
            .saturating_add(times(index, COLUMN))
            .saturating_add(times(column.gaps, GAP))
    }

    /// The left edge of the blocks of the column at this place.
    pub fn left(&self, index: usize) -> u64 {
        match self.scene.columns.get(index) {
            Some(column) => self.left_of(index, column),
            None => MARGIN,
        }
    }

    /// The middle of a column.
    pub fn middle(&self, index: usize) -> u64 {
        self.left(index).saturating_add(BLOCK_WIDTH / 2)
    }

    /// The upper edge of a block.
    pub fn top(&self, place: GridCell) -> u64 {
        HEAD.saturating_add(AXIS)
            .saturating_add(times(place.row, ROW))
    }

    /// The upper edge of the culprits' votes.
    pub fn lanes_top(&self) -> u64 {
        HEAD.saturating_add(AXIS)
            .saturating_add(times(self.scene.rows, ROW))
    }

    /// The upper edge of the votes of the culprit at this place.
    pub fn lane(&self, index: usize) -> u64 {
        self.lanes_top()
            .saturating_add(LANES_HEAD)
            .saturating_add(times(index, LANE))
    }

    /// The upper edge of the legend.
    pub fn legend_top(&self) -> u64 {
        let culprits = self.scene.culprits.len();
        if culprits == 0 {
            self.lanes_top()
        } else {
            self.lane(culprits).saturating_add(MARGIN)
        }
    }

    /// The upper edge of the lines of the sources.
    pub fn sources_top(&self) -> u64 {
        self.legend_top().saturating_add(LEGEND)
    }

    /// The size of the page.
    pub fn width(&self) -> u64 {
        let last = self.scene.columns.len().saturating_sub(1);
        let drawn = self
            .left(last)
            .saturating_add(COLUMN)
            .saturating_add(MARGIN);
        drawn.max(LEAST_WIDTH)
    }

    /// The size of the page.
    pub fn height(&self) -> u64 {
        self.sources_top()
            .saturating_add(times(self.scene.sources.len(), SMALL_LINE))
            .saturating_add(MARGIN)
    }
}

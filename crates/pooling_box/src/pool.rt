// The total of the shops' rows, as the box collects it.
use crate::agreed::PLACES;
use crate::reasons;
use check_order::Refusal;
use key_switch::key_switch_batch_to;
use key_switch_parameters::LweKeySwitchingParameters;
use pooling::{LweDecryptionParameters, LweTag, add_saved, begin_saved};
use programs::Pieces;
use std::fmt::Write;

// The words of the total, a tag for each place, and how many rows were added.
// Stays: tags beside the words: `pooling` is lent them so; and rows 0 for a total that has not begun, no Option: it is printed.
#[derive(Drop)]
pub(crate) struct Pool<'a> {
    pub(crate) params: LweDecryptionParameters,
    pub(crate) total: &'a mut [u32],
    pub(crate) tags: [LweTag; PLACES],
    pub(crate) rows: u32,
}

impl Pool<'_> {
    // The first row that is accepted is the total, and the others are added to it. A row goes in whole, or not at all.
    pub(crate) fn add(&mut self, row: &[u8]) -> Result<(), Refusal> {
        if self.rows == 0 {
            begin_saved(self.params, row, self.total, &mut self.tags)?;
        } else {
            add_saved(self.params, row, self.total, &mut self.tags)?;
        }
        self.rows = self.rows.saturating_add(1);
        Ok(())
    }

    // Switches the total into `out`. Each place keeps its c, and no tally.
    pub(crate) fn switch(
        &mut self,
        params: LweKeySwitchingParameters,
        key: &[u32],
        out: &mut [u32],
    ) -> Result<(), Refusal> {
        let mut tags = self.tags;
        let answer = key_switch_batch_to(params, key, self.total, &mut tags, out);
        self.tags = tags;
        answer
    }

    // What each place carries, and its mark.
    pub(crate) fn print_marks(&self, rt: &impl Print) {
        for (i, tag) in self.tags.iter().enumerate() {
            let mut out = Pieces(rt);
            let _ = write!(out, "  casting {}", i + 1);
            let _ = match tag.tally() {
                None => write!(out, ": no tally"),
                Some(a) => write!(out, ": tally {a}"),
            };
            let _ = write!(out, ", c {}", tag.count());
            match tag.is_good(self.params.modulus, self.params.plaintext_modulus) {
                Ok(good) => print_good(rt, good),
                Err(reason) => reasons::refused(rt, reason),
            }
        }
    }
}

fn print_good(rt: &impl Print, good: bool) {
    let mark = if good {
        "marked good"
    } else {
        "not marked good"
    };
    let _ = println!(rt; ", {mark}");
}

//! A fact that is put out.
//!
//! Its rows: `tests/rows/json_objects.txt`, `log.txt`.

ghost use Rattle.std.specs.Prelude.{◌≡◌, [], ◌∷◌, MatchOption, OnOk, drop, take};
ghost use Rattle.pmb_facts.specs.Fact.{WhatData};
ghost use Rattle.pmb_facts.specs.Stands.{IsShort, Stands};
ghost use Rattle.pmb_io.specs.Calls.{WriterTells};
ghost use Rattle.pmb_json_objects.specs.Head.{head_of};
ghost use Rattle.pmb_keeper.specs.Setting.{before_fact, fact_seen};
ghost use Rattle.pmb_fact_stream.specs.Before.{Before};
ghost use Rattle.pmb_fact_stream.specs.Stream.{StreamKnows, stream_time};
ghost use Rattle.pmb_fact_stream.specs.machine.Begun.{kept_at};
ghost use Rattle.pmb_fact_stream.specs.machine.Knowing.{stream_seen};
ghost use Rattle.pmb_fact_stream.specs.machine.Putting.{PutsFacts};

use crate::stream::{Begun, Stream};
use pmb_facts::{Fact, What};
use pmb_io::{RunFault, Sink, Waiting, make_room};
use pmb_json_objects::{OBJECT, is_wanted};
use pmb_keeper::Keeper;

impl<'p> Stream<'p> {
    /// Hands a fact to the keeper, and puts out its line, if it is wanted.
    pub(crate) fn put_fact<W: Sink, K: Keeper>(
        &self,
        keeper: &mut K,
        fact: Fact<'_>,
        waiting: &mut Waiting,
        writer: &mut W,
    ) -> Result<(), RunFault>
        requires few { IsShort fact.what }
        ensures puts { (some : Before) (what : WhatData) → StreamKnows some self.now → Stands fact.entry.what what
            → OnOk result (PutsFacts K.Keeps self.now keeper.old keeper.new (λ b. fact_seen (stream_seen self.now b) (head_of fact.entry.head) what ∷ []) (W.told writer.old).held waiting.old.items (W.told writer.new).held waiting.new.items) }
        ensures failed { WriterTells (W.told writer.old) (W.told writer.new) result }
    {
        keeper.keep(&self.seen(), fact);
        if !is_wanted(self.choice.devices, fact.what.device()) {
            return Ok(());
        }
        make_room(waiting, OBJECT, writer)?;
        self.choice.telling.append_line(waiting, &self.seen(), fact);
        Ok(())
    }

    /// Puts out the fact of what begins with the START of the packet with a number, counted from 0.
    pub(crate) fn put_at<W: Sink, K: Keeper>(
        &self,
        keeper: &mut K,
        index: usize,
        what: What<'_>,
        waiting: &mut Waiting,
        writer: &mut W,
    ) -> Result<(), RunFault>
        requires few { IsShort what }
        ensures puts { (some : Before) (known : WhatData) → StreamKnows some self.now → Stands what.entry known
            → OnOk result (PutsFacts K.Keeps self.now keeper.old keeper.new (λ b. kept_at (before_fact b.past known) (stream_time self.now) index self.now.begun.items known) (W.told writer.old).held waiting.old.items (W.told writer.new).held waiting.new.items) }
        ensures failed { WriterTells (W.told writer.old) (W.told writer.new) result }
    {
        let Some(begun) = self.begun_at(index) else {
            return Ok(());
        };
        let head = self.head(begun);
        self.put_fact(keeper, Fact { head, what }, waiting, writer)
    }

    /// The START of the packet with a number, counted from 0.
    fn begun_at(&self, index: usize) -> Option<Begun>
        ensures { MatchOption result (take 1 (drop index self.now.begun.items) ≡ []) (λ begun. take 1 (drop index self.now.begun.items) ≡ begun ∷ []) }
    {
        match self.begun.as_slice().get(index) {
            Some(begun) => Some(*begun),
            None => None,
        }
    }
}

//! The facts of a packet.
//!
//! Its rows: `tests/rows/json_objects.txt`, `log.txt`.

ghost use Rattle.std.specs.Prelude.{◌≤◌, OnOk, length, map};
ghost use Rattle.pmb_io.specs.Calls.{WriterTells};
ghost use Rattle.pmb_transaction.specs.Transaction.{part_data, transaction_data};
ghost use Rattle.pmb_fact_stream.specs.Before.{Before};
ghost use Rattle.pmb_fact_stream.specs.Stream.{StreamKnows, stream_time};
ghost use Rattle.pmb_fact_stream.specs.machine.Begun.{kept_facts, kept_writes};
ghost use Rattle.pmb_fact_stream.specs.machine.Putting.{PutsFacts};

use crate::stream::Stream;
use pmb_facts::What;
use pmb_io::{RunFault, Sink, Waiting};
use pmb_keeper::Keeper;
use pmb_transaction::{Part, Transaction};

impl<'p> Stream<'p> {
    /// Puts out the facts of the packet that ends: one for each part of a group.
    ///
    /// # Errors
    ///
    /// `Write` where the writer failed.
    pub(crate) fn put_packet<W: Sink, K: Keeper>(
        &self,
        keeper: &mut K,
        transaction: &Transaction,
        waiting: &mut Waiting,
        writer: &mut W,
    ) -> Result<(), RunFault>
        ensures puts { (some : Before) → StreamKnows some self.now → OnOk result (PutsFacts K.Keeps self.now keeper.old keeper.new (λ b. kept_facts b.past (stream_time self.now) self.now.begun.items (transaction_data transaction.now)) (W.told writer.old).held waiting.old.items (W.told writer.new).held waiting.new.items) }
        ensures failed { WriterTells (W.told writer.old) (W.told writer.new) result }
    {
        match transaction {
            Transaction::Write { parts } => {
                self.put_parts(
                    keeper,
                    parts.as_slice(),
                    parts.len() as u64,
                    waiting,
                    writer,
                )
            }
            Transaction::Read {
                addr,
                code,
                reply,
                pec,
            } => {
                let what = What::Read {
                    addr: *addr,
                    code: *code,
                    reply: reply.as_slice(),
                    pec: *pec,
                };
                self.put_at(keeper, 0, what, waiting, writer)
            }
            Transaction::Call {
                addr,
                code,
                bytes,
                reply,
                pec,
            } => {
                let what = What::Call {
                    addr: *addr,
                    code: *code,
                    sent: bytes.as_slice(),
                    reply: reply.as_slice(),
                    pec: *pec,
                };
                self.put_at(keeper, 0, what, waiting, writer)
            }
            Transaction::Refused {
                parts,
                addr,
                sent,
                at_read,
            } => {
                let count = parts.len() as u64 + 1;
                self.put_parts(keeper, parts.as_slice(), count, waiting, writer)?;
                let what = What::Refused {
                    parts: count,
                    addr: *addr,
                    sent: sent.as_slice(),
                    at_read: *at_read,
                };
                self.put_at(keeper, parts.len(), what, waiting, writer)
            }
            Transaction::Alert { byte, pec } => {
                let what = What::Alert {
                    byte: *byte,
                    pec: *pec,
                };
                self.put_at(keeper, 0, what, waiting, writer)
            }
            Transaction::NoAlert => self.put_at(keeper, 0, What::NoAlert, waiting, writer),
        }
    }

    /// Puts out the facts of parts, each at its START, with the total number of parts.
    fn put_parts<W: Sink, K: Keeper>(
        &self,
        keeper: &mut K,
        parts: &[Part],
        count: u64,
        waiting: &mut Waiting,
        writer: &mut W,
    ) -> Result<(), RunFault>
        requires few { length parts.now ≤ 16 }
        ensures puts { (some : Before) → StreamKnows some self.now → OnOk result (PutsFacts K.Keeps self.now keeper.old keeper.new (λ b. kept_writes b.past (stream_time self.now) 1 count self.now.begun.items (map part_data parts.now)) (W.told writer.old).held waiting.old.items (W.told writer.new).held waiting.new.items) }
        ensures failed { WriterTells (W.told writer.old) (W.told writer.new) result }
    {
        for index in 0..parts.len() {
            let what = What::Write {
                part: index as u64 + 1,
                parts: count,
                written: &parts[index],
            };
            self.put_at(keeper, index, what, waiting, writer)?;
        }
        Ok(())
    }
}

//! A writer that keeps which faults its lines report, and what explains them.
//!
//! Its rows: `tests/rows/explanations.txt`.

use crate::asked::is_import;
use crate::explaining::Explaining;
use crate::explanation::Explanation;
use crate::run_end::explanation_of;
use crate::watch::Watch;
use pmb_io::{IoFault, Sink};
use std::alloc::Global;
use std::convert::AsStr;

/// How many bytes of the input are kept where faults are explained: the longest profile with its line `%%`,
/// and 65,536 bytes of what follows it.
const KEPT: usize = 1_114_116;

/// A writer, and what the lines report that were written to it: where faults are explained, and of `import`.
#[derive(Drop)]
pub struct KeptOutput<W> {
    inner: W,
    explaining: Explaining,
    /// Whether anything is kept.
    keeps: bool,
    watch: Watch,
}

impl<W> KeptOutput<W> {
    ghost use Rattle.std.specs.Prelude.{◌≡◌};
    ghost use Rattle.pmb_explained.specs.Kept.{output_inner};

    /// A writer for the output that the words of a command line ask for. Nothing was written to it so far.
    pub fn new<S: AsStr>(inner: W, explaining: Explaining, words: &[S]) -> KeptOutput<W>
        ensures inner { output_inner result ≡ inner }
    {
        KeptOutput {
            inner,
            explaining,
            keeps: explaining == Explaining::On || is_import(words),
            watch: Watch::new(),
        }
    }

    /// How many bytes of the input are to be kept.
    pub fn limit(&self) -> usize {
        match self.explaining {
            Explaining::On => KEPT,
            Explaining::Off => 0,
        }
    }

    /// Forgets what was reported: another run begins.
    pub fn begin(&mut self)
        ensures inner { output_inner self.new ≡ output_inner self.old }
    {
        self.watch = Watch::new();
    }

    /// What explains a run that wrote to this since it began, by its words, its exit status, what was kept of
    /// its input, and what it said on standard error. Where faults aren't explained, it is empty but for the
    /// last line of `import`.
    pub fn explanation<S: AsStr>(
        &self,
        alloc: Global,
        words: &[S],
        status: u8,
        input: &[u8],
        said: &[u8],
    ) -> Explanation {
        explanation_of(
            alloc,
            self.explaining,
            words,
            status,
            input,
            &self.watch.reports,
            said,
        )
    }

    /// The writer inside.
    pub fn into_inner(self) -> W
        ensures { result ≡ output_inner self }
    {
        let KeptOutput { inner, .. } = self;
        inner
    }
}

impl<W: Sink> Sink for KeptOutput<W> {
    ghost use Rattle.std.specs.Prelude.{OnOk, OnErr};
    ghost use Rattle.std.specs.Io.KnownBytes.{Appends};
    ghost use Rattle.pmb_io.specs.Calls.{AppendsFront, CountsFailure};
    ghost use Rattle.pmb_explained.specs.Kept.{output_inner};

    ghost told = { λ it. W.told it.inner };

    // It writes what the writer inside writes.
    fn write_all(&mut self, bytes: &[u8]) -> Result<(), IoFault>
        ensures written { OnOk result (Appends (W.told (output_inner self.old)).held (W.told (output_inner self.new)).held bytes.now) }
        ensures front { OnErr result (AppendsFront (W.told (output_inner self.old)).held (W.told (output_inner self.new)).held bytes.now) }
        ensures failed { CountsFailure (W.told (output_inner self.old)).failures (W.told (output_inner self.new)).failures result }
    {
        match self.inner.write_all(bytes) {
            Ok(()) => {
                if self.keeps {
                    self.watch.take(bytes);
                }
                Ok(())
            }
            Err(fault) => Err(fault),
        }
    }
}

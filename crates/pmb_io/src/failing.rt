//! A reader or writer for tests, whose calls can be made to fail.
//!
//! Its rows: `tests_bytes`, `src/io/giving.rt`, `src/io/waiting.rt`; `tests/rows/failures.txt`.

ghost use Rattle.std.specs.Prelude.{◌<◌};

use crate::count::raised;
use crate::fault::IoFault;
use crate::sink::Sink;
use crate::source::Source;

/// A reader or writer that can be told to fail at one of its calls, and to give few bytes a read.
/// For tests.
#[derive(Debug, Drop)]
pub struct Failing<T> {
    inner: T,
    /// How many more calls go through before one fails; `None` for all of them.
    left: Option<u64>,
    /// The most bytes that one read gives.
    most: usize,
    /// How many calls failed; stays at the greatest `u64`.
    failures: u64,
    ghost gives_some: { 0 < most },
}

impl<T> Failing<T> {
    ghost use Rattle.std.specs.Prelude.{◌≡◌, ◌-◌, ◌^◌, ◌<◌, ◌↔◌, None, Some, IsTrue};
    ghost use Rattle.std.specs.Bool.{OnTrue, OnFalse};
    ghost use Rattle.pmb_io.specs.Count.{raised};
    ghost use Rattle.pmb_io.specs.Failing.{failing_inner, failing_left, failing_most, failing_failures, one_call_fewer};

    /// No call fails of itself, and a read gives as many bytes as there are.
    pub fn new(inner: T) -> Failing<T>
        ensures inner { failing_inner result ≡ inner }
        ensures left { failing_left result ≡ None }
        ensures most { failing_most result ≡ 2 ^ 64 - 1 }
        ensures failures { failing_failures result ≡ 0 }
    {
        Failing {
            inner,
            left: None,
            most: usize::MAX,
            failures: 0,
        }
    }

    /// The call after this many others fails, and so do all after it. They reach nothing.
    pub fn fail_after(&mut self, calls: u64)
        ensures inner { failing_inner self.new ≡ failing_inner self.old }
        ensures left { failing_left self.new ≡ Some calls }
        ensures most { failing_most self.new ≡ failing_most self.old }
        ensures failures { failing_failures self.new ≡ failing_failures self.old }
    {
        self.left = Some(calls);
    }

    /// A read gives at most this many bytes.
    pub fn give_at_most(&mut self, bytes: usize)
        requires { 0 < bytes }
        ensures inner { failing_inner self.new ≡ failing_inner self.old }
        ensures left { failing_left self.new ≡ failing_left self.old }
        ensures most { failing_most self.new ≡ bytes }
        ensures failures { failing_failures self.new ≡ failing_failures self.old }
    {
        self.most = bytes;
    }

    /// What is inside.
    pub fn inner(&self) -> &T
        ensures { result.now ≡ failing_inner self.now }
    {
        &self.inner
    }

    // Whether the next call is to fail, which is then counted.
    fn fails(&mut self) -> bool
        ensures when { IsTrue result ↔ (failing_left self.old ≡ Some 0) }
        ensures inner { failing_inner self.new ≡ failing_inner self.old }
        ensures left { failing_left self.new ≡ one_call_fewer (failing_left self.old) }
        ensures most { failing_most self.new ≡ failing_most self.old }
        ensures counted { OnTrue result (failing_failures self.new ≡ raised (failing_failures self.old) 1) }
        ensures uncounted { OnFalse result (failing_failures self.new ≡ failing_failures self.old) }
    {
        match self.left {
            None => false,
            Some(0) => {
                self.failures = raised(self.failures, 1);
                true
            }
            Some(calls) => {
                self.left = Some(calls - 1);
                false
            }
        }
    }
}

impl<T: Source> Source for Failing<T> {
    ghost use Rattle.std.specs.Prelude.{◌≡◌, ◌≢◌, ◌≤◌, Some, length, IfOk, IsErr};
    ghost use Rattle.std.specs.Io.KnownBytes.{ReadConsumes};
    ghost use Rattle.pmb_io.specs.Calls.{CountsBytes, CountsFailure, CountsRead, TellsEnd};
    ghost use Rattle.pmb_io.specs.Failing.{failing_inner, failing_left, failing_most, failing_failures, one_call_fewer};

    ghost told = { λ it. record (T.told it.inner) { failures = it.failures } };

    fn read(&mut self, buffer: &mut [u8]) -> Result<usize, IoFault>
        ensures within { IfOk result (λ n. n ≤ length buffer.new) }
        ensures bytes { ReadConsumes (T.told (failing_inner self.old)).left (T.told (failing_inner self.new)).left result buffer.new }
        ensures failed { CountsFailure (failing_failures self.old) (failing_failures self.new) result }
        ensures read { CountsRead (T.told (failing_inner self.old)) (T.told (failing_inner self.new)) result buffer.new }
        ensures given { CountsBytes (T.told (failing_inner self.old)).given (T.told (failing_inner self.new)).given result }
        ensures ended { TellsEnd (T.told (failing_inner self.old)).ended (T.told (failing_inner self.new)).ended result buffer.new }
        ensures at_most { IfOk result (λ n. n ≤ failing_most self.old) }

        // The call whose turn it is fails and reaches nothing; another fails only where the reader inside does.
        ensures turn { failing_left self.old ≡ Some 0 → IsErr result × (failing_inner self.new ≡ failing_inner self.old) }
        ensures inside { failing_left self.old ≢ Some 0
            → CountsFailure (T.told (failing_inner self.old)).failures (T.told (failing_inner self.new)).failures result }
        ensures left { failing_left self.new ≡ one_call_fewer (failing_left self.old) }
        ensures most { failing_most self.new ≡ failing_most self.old }
    {
        if self.fails() {
            return Err(IoFault);
        }
        let most = self.most.min(buffer.len());
        let front = &mut buffer[..most];
        match self.inner.read(front) {
            Ok(count) => Ok(count),
            Err(fault) => {
                self.failures = raised(self.failures, 1);
                Err(fault)
            }
        }
    }
}

impl<T: Sink> Sink for Failing<T> {
    ghost use Rattle.std.specs.Prelude.{◌≡◌, ◌≢◌, Some, OnOk, OnErr, IsErr};
    ghost use Rattle.std.specs.Io.KnownBytes.{Appends};
    ghost use Rattle.pmb_io.specs.Calls.{CountsFailure, AppendsFront};
    ghost use Rattle.pmb_io.specs.Failing.{failing_inner, failing_left, failing_most, failing_failures, one_call_fewer};

    ghost told = { λ it. record (T.told it.inner) { failures = it.failures } };

    fn write_all(&mut self, bytes: &[u8]) -> Result<(), IoFault>
        ensures written { OnOk result (Appends (T.told (failing_inner self.old)).held (T.told (failing_inner self.new)).held bytes.now) }
        ensures front { OnErr result (AppendsFront (T.told (failing_inner self.old)).held (T.told (failing_inner self.new)).held bytes.now) }
        ensures failed { CountsFailure (failing_failures self.old) (failing_failures self.new) result }

        // The call whose turn it is fails and reaches nothing; another fails only where the writer inside does.
        ensures turn { failing_left self.old ≡ Some 0 → IsErr result × (failing_inner self.new ≡ failing_inner self.old) }
        ensures inside { failing_left self.old ≢ Some 0
            → CountsFailure (T.told (failing_inner self.old)).failures (T.told (failing_inner self.new)).failures result }
        ensures left { failing_left self.new ≡ one_call_fewer (failing_left self.old) }
        ensures most { failing_most self.new ≡ failing_most self.old }
    {
        if self.fails() {
            return Err(IoFault);
        }
        match self.inner.write_all(bytes) {
            Ok(()) => Ok(()),
            Err(fault) => {
                self.failures = raised(self.failures, 1);
                Err(fault)
            }
        }
    }
}

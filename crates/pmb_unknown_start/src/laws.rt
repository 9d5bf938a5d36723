//! Laws over the definitions of what is known. Each function ensures some, and does nothing.

ghost use Rattle.std.specs.Prelude.{◌≡◌, ◌≢◌, ◌++◌, ℕ, List, [], None, Some, map};
ghost use Rattle.pmb_command.specs.Bus.{IsBus};
ghost use Rattle.pmb_command.specs.Parts.{DeviceParts, device_with};
ghost use Rattle.pmb_transaction.specs.Transaction.{TransactionData};
ghost use Rattle.pmb_note.specs.Paging.{PagingData, first_paging, paging, mode as mode_of_whole, page as page_of_whole};
ghost use Rattle.pmb_unknown_start.specs.declared.mode.KnownMode.TheVariants.{Known, NoPage};
ghost use Rattle.pmb_unknown_start.specs.declared.start.Start.{Start};
ghost use Rattle.pmb_unknown_start.specs.declared.start.Start.TheVariants.{AllKnown, Late};
ghost use Rattle.pmb_unknown_start.specs.Known.{known, known_mode, mode, page};
ghost use Rattle.pmb_unknown_start.specs.Past.{PastData, Said, transactions_of};
ghost use Rattle.pmb_unknown_start.specs.Phase.{phase};
ghost use Rattle.pmb_unknown_start.specs.Taken.{NoneCrosses, as_taken, taken};
ghost use Rattle.pmb_unknown_start.specs.Certain.{CanBeCutAfter, CanBegin, CanReach, DropsOnOwnPage, IsCertainMode, IsCertainPage, StaysKnown, known_as};

/// What is known is certain by what the device took: it is so for each VOUT_MODE and each PAGE that the device can have where
/// the capture begins, one of its pages or ffh, and late also for each VOUT_MODE that a page can have
/// after it was untold, and for all that PAGE and VOUT_MODE can be after a line that was dropped. So it
/// is where there is no mode. Not all that is certain is known: of several
/// pages, where PAGE is not, the mode that was told last is not taken for known.
pub fn what_is_known_is_certain()
    ensures mode { (start : Start) (device : DeviceParts) (past : List PastData) (mode : ℕ) → known_mode (known start device past) ≡ Known mode
        → IsCertainMode start device (as_taken device past) (Some mode) }
    ensures no_mode { (start : Start) (device : DeviceParts) (past : List PastData) → known_mode (known start device past) ≡ NoPage
        → IsCertainMode start device (as_taken device past) None }
    ensures page { (start : Start) (device : DeviceParts) (past : List PastData) (page : ℕ) → (known start device past).page ≡ Some page
        → IsCertainPage start device (as_taken device past) page }
{}

/// A piece of a capture says of no mode, page or phase what the whole denies: what is known of them in
/// the piece is known in the whole, where all is known from the start, of the mode if the capture is cut
/// where it can be.
pub fn pieces_say_what_the_whole_says()
    ensures mode { (profile : List DeviceParts) (start : Start) (before piece : List PastData) (addr : ℕ) → IsBus profile
        → ((device : DeviceParts) → device_with addr profile ≡ Some device → CanBeCutAfter start device before)
        → StaysKnown (mode start profile piece addr) (mode AllKnown profile (before ++ piece) addr) }
    ensures page { (profile : List DeviceParts) (start : Start) (before piece : List PastData) (addr : ℕ) (number : ℕ) → start ≢ AllKnown
        → page start profile piece addr ≡ Some number → page AllKnown profile (before ++ piece) addr ≡ Some number }
    ensures phase { (profile : List DeviceParts) (before piece : List PastData) (addr : ℕ) (number : ℕ) → phase profile piece addr ≡ Some number
        → phase profile (before ++ piece) addr ≡ Some number }
{}

/// What is known after lines were dropped is known too where these lines are there, and all is known from
/// the start: if the transactions that were on the bus lead to a PAGE and VOUT_MODE that may have been
/// reached, and none of them reaches the device at two of its addresses. What comes then, comes to both.
pub fn what_may_be_reached_stays_known()
    ensures mode { (start : Start) (device : DeviceParts) (p : PagingData) (past rest : List PastData) (ts : List TransactionData)
        → CanBegin start device p → CanReach start device p (as_taken device past) (paging device (map (taken device) ts)) → NoneCrosses device ts
        → StaysKnown (known_mode (known start device (past ++ rest))) (known_mode (known AllKnown device (map Said ts ++ rest))) }
    ensures page { (start : Start) (device : DeviceParts) (p : PagingData) (past rest : List PastData) (ts : List TransactionData) (page : ℕ)
        → CanBegin start device p → CanReach start device p (as_taken device past) (paging device (map (taken device) ts)) → NoneCrosses device ts
        → (known start device (past ++ rest)).page ≡ Some page → (known AllKnown device (map Said ts ++ rest)).page ≡ Some page }
{}

/// What is not assumed is the same with each start: where the mode would be known, or known not to be,
/// had the capture begun in the middle, it is so from the beginning, and where VOUT_MODE is fixed. So it is
/// with a PAGE that would be known.
pub fn what_is_not_assumed_is_so_from_each_start()
    ensures mode { (profile : List DeviceParts) (start : Start) (past : List PastData) (addr : ℕ) → IsBus profile
        → StaysKnown (mode Late profile past addr) (mode start profile past addr) }
    ensures page { (profile : List DeviceParts) (start : Start) (past : List PastData) (addr number : ℕ)
        → page Late profile past addr ≡ Some number → page start profile past addr ≡ Some number }
{}

/// Where all is known from the start, it is what a `pmb_note::Context` says of the transactions, if PAGE is a
/// page that the device has, or ffh, at each line that was dropped, and the device has no other addresses.
pub fn all_that_is_known_is_the_context()
    ensures mode { (profile : List DeviceParts) (past : List PastData) (addr : ℕ)
        → ((device : DeviceParts) → device_with addr profile ≡ Some device
        → (device.also ≡ []) × DropsOnOwnPage device (first_paging device) past)
        → mode AllKnown profile past addr ≡ known_as (mode_of_whole profile (transactions_of past) addr) }
    ensures page { (profile : List DeviceParts) (past : List PastData) (addr : ℕ)
        → ((device : DeviceParts) → device_with addr profile ≡ Some device
        → (device.also ≡ []) × DropsOnOwnPage device (first_paging device) past)
        → page AllKnown profile past addr ≡ page_of_whole profile (transactions_of past) addr }
{}

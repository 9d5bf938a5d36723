//! Laws over the definitions alone.

ghost use Rattle.std.specs.Prelude.{◌≡◌, ◌∷◌, [], List, None, Some, ℕ, codes};
ghost use Rattle.clap.specs.Words.{Text};
ghost use Rattle.pmb_words.specs.Numbers.{decimal_of};
ghost use Rattle.pmb_sigrok_line.specs.Shown.{hertz_of};
ghost use Rattle.pmb_sigrok_line.specs.declared.address_form.AddressForm.TheVariants.{Shifted, Unshifted};
ghost use Rattle.pmb_sigrok_line.specs.declared.rate.Rate.{Rate};
ghost use Rattle.pmb_recorder.specs.Recorded.{OfKernel, OfSigrok};
ghost use Rattle.pmb_recorder.specs.declared.source.Source.{Source};
ghost use Rattle.pmb_args.specs.Import.{recorded_by, source_word};
ghost use Rattle.pmb_args.specs.Asked.{AskFor, AskForNothing, Asking, Convert, HasBadFormat, Import, NamesNone, NeedsNoFlag, Scan, Stats, UnderProfile, Wanted, converter, name_of, wanted_by};
ghost use Rattle.clap.specs.declared.error.kind.ErrorKind.TheVariants.{DisplayHelp, InvalidSubcommand};
ghost use Rattle.pmb_stats_counts.specs.declared.fail.Fail.{Fail};
ghost use Rattle.pmb_args.specs.Facts.{FactsCommand, SpellsAddress, SpellsDigits, at_first, command_name, json, stats};
ghost use Rattle.pmb_args.specs.Fails.{SpellsFails};
ghost use Rattle.pmb_args.specs.Stats.{table_of};
ghost use Rattle.pmb_args.specs.declared.stats_arguments.StatsForm.TheVariants.{Objects};
ghost use Rattle.pmb_args.specs.Words.{AreRefused, AskToTell, IsFlag, faults_of};
ghost use Rattle.pmb_args.specs.declared.direction.Direction.{Direction};
ghost use Rattle.pmb_scan.specs.declared.after_bad_token.AfterBadToken.TheVariants.{Continue};
ghost use Rattle.pmb_unknown_start.specs.declared.start.Start.TheVariants.{Late, LateFixedMode};
ghost use Rattle.pmb_args.specs.declared.profile_place.ProfilePlace.TheVariants.{Front, Sample};

use pmb_recorder::laws::one_recorder;

/// The words `pmb show`, `pmb check`, `pmb json`, `pmb log`, `pmb stats`, `pmb build`, `pmb run` and
/// `pmb profile`, each with `--sample` or without it, `pmb scan`, `pmb encode FORMAT` and `pmb decode FORMAT` have
/// no fault of `clap`'s and ask for just that, where FORMAT does not begin with `-`; `pmb --help` and `pmb --version` call for
/// a text about `pmb`. Of `pmb help` and whatever words after it `clap`'s definition says that they
/// may call for help or be refused.
pub fn words_ask()
    ensures sampled { (name : Text) (wanted : Wanted) → NeedsNoFlag wanted → AskFor (name ∷ name_of wanted ∷ codes "--sample" ∷ []) (UnderProfile Sample wanted) }
    ensures unsampled { (name : Text) (wanted : Wanted) → NeedsNoFlag wanted → AskFor (name ∷ name_of wanted ∷ []) (UnderProfile Front wanted) }
    ensures converts { (name format : Text) (direction : Direction) → (IsFlag format → ⊥) → AskFor (name ∷ converter direction ∷ format ∷ []) (Convert direction format) }
    ensures scans { (name : Text) → AskFor (name ∷ codes "scan" ∷ []) Scan }
    ensures help { (name : Text) → AskToTell (name ∷ codes "--help" ∷ []) }
    ensures version { (name : Text) → AskToTell (name ∷ codes "--version" ∷ []) }
    ensures help_words { (name : Text) (words : List Text) → faults_of (name ∷ codes "help" ∷ words) ≡ DisplayHelp ∷ InvalidSubcommand ∷ [] }
{}

/// `pmb json`, `pmb log` and `pmb stats` with `--late`, `--late --fixed-vout-mode`, `--keep-going`,
/// `--keep-going --sample`, `--digits N` or `--device HH` have no fault of `clap`'s and ask for just
/// that, where N is a number from 0 to 12 and HH an address. With any other N or HH that does not
/// begin with `-`, and with `--fixed-vout-mode` alone, they ask for nothing.
pub fn fact_words_ask()
    ensures late { (name : Text) (command : FactsCommand) → AskFor (name ∷ command_name command ∷ codes "--late" ∷ []) (UnderProfile Front (wanted_by command (record (at_first command) { start = Late }))) }
    ensures late_fixed { (name : Text) (command : FactsCommand) → AskFor (name ∷ command_name command ∷ codes "--late" ∷ codes "--fixed-vout-mode" ∷ []) (UnderProfile Front (wanted_by command (record (at_first command) { start = LateFixedMode }))) }
    ensures keep_going { (name : Text) (command : FactsCommand) → AskFor (name ∷ command_name command ∷ codes "--keep-going" ∷ []) (UnderProfile Front (wanted_by command (record (at_first command) { after_bad_token = Continue }))) }
    ensures two { (name : Text) (command : FactsCommand) → AskFor (name ∷ command_name command ∷ codes "--keep-going" ∷ codes "--sample" ∷ []) (UnderProfile Sample (wanted_by command (record (at_first command) { after_bad_token = Continue }))) }
    ensures digits { (name : Text) (command : FactsCommand) (N : Text) (n : ℕ) → SpellsDigits N n → AskFor (name ∷ command_name command ∷ codes "--digits" ∷ N ∷ []) (UnderProfile Front (wanted_by command (record (at_first command) { digits = n }))) }
    ensures device { (name : Text) (command : FactsCommand) (HH : Text) (address : ℕ) → SpellsAddress HH address → AskFor (name ∷ command_name command ∷ codes "--device" ∷ HH ∷ []) (UnderProfile Front (wanted_by command (record (at_first command) { devices = address ∷ [] }))) }
    ensures fixed_alone { (name : Text) (command : FactsCommand) → AskForNothing (name ∷ command_name command ∷ codes "--fixed-vout-mode" ∷ []) }
    ensures bad_digits { (name : Text) (command : FactsCommand) (N : Text) → (IsFlag N → ⊥) → ((n : ℕ) → SpellsDigits N n → ⊥) → AskForNothing (name ∷ command_name command ∷ codes "--digits" ∷ N ∷ []) }
    ensures bad_device { (name : Text) (command : FactsCommand) (HH : Text) → (IsFlag HH → ⊥) → ((address : ℕ) → SpellsAddress HH address → ⊥) → AskForNothing (name ∷ command_name command ∷ codes "--device" ∷ HH ∷ []) }
{}

/// `pmb stats` with `--json` or `--fail-on WHAT` has no fault of `clap`'s and asks for just that, where
/// WHAT is one word or more of the six, with a comma between each two. With any other WHAT that does
/// not begin with `-` it asks for nothing.
pub fn stats_words_ask()
    ensures json { (name : Text) → AskFor (name ∷ codes "stats" ∷ codes "--json" ∷ []) (UnderProfile Front (Stats (record (table_of (at_first json)) { form = Objects }))) }
    ensures fail_on { (name WHAT : Text) (fails : List Fail) → SpellsFails WHAT fails → AskFor (name ∷ codes "stats" ∷ codes "--fail-on" ∷ WHAT ∷ []) (UnderProfile Front (Stats (record (table_of (at_first stats)) { fail_on = Some fails }))) }
    ensures bad_fail_on { (name WHAT : Text) → (IsFlag WHAT → ⊥) → ((fails : List Fail) → SpellsFails WHAT fails → ⊥) → AskForNothing (name ∷ codes "stats" ∷ codes "--fail-on" ∷ WHAT ∷ []) }
{}

/// `pmb import SOURCE` with each of the five sources, `pmb import kernel --bus NAME`,
/// `pmb import sigrok --rate HZ` and `pmb import sigrok --unshifted` have no fault of `clap`'s and ask
/// for just that, where NAME does not begin with `-` and HZ is the number of a rate. With another
/// SOURCE or another HZ that does not begin with `-`, with NAME for a Beagle, and with `--unshifted`
/// for the kernel, the words ask for nothing.
pub fn import_words_ask()
    ensures source { (name : Text) (source : Source) → AskFor (name ∷ codes "import" ∷ source_word source ∷ []) (Import (recorded_by source)) }
    ensures bus { (name NAME : Text) → (IsFlag NAME → ⊥) → AskFor (name ∷ codes "import" ∷ codes "kernel" ∷ codes "--bus" ∷ NAME ∷ []) (Import (OfKernel (Some NAME))) }
    ensures unshifted { (name : Text) → AskFor (name ∷ codes "import" ∷ codes "sigrok" ∷ codes "--unshifted" ∷ []) (Import (OfSigrok None None Unshifted)) }
    ensures rate { (name HZ : Text) (rate : Rate) → decimal_of HZ ≡ Some (hertz_of rate) → AskFor (name ∷ codes "import" ∷ codes "sigrok" ∷ codes "--rate" ∷ HZ ∷ []) (Import (OfSigrok None (Some rate) Shifted)) }
    ensures bad_source { (name SOURCE : Text) → (IsFlag SOURCE → ⊥) → ((source : Source) → SOURCE ≡ source_word source → ⊥) → AskForNothing (name ∷ codes "import" ∷ SOURCE ∷ []) }
    ensures bad_rate { (name HZ : Text) → (IsFlag HZ → ⊥) → ((rate : Rate) → decimal_of HZ ≡ Some (hertz_of rate) → ⊥) → AskForNothing (name ∷ codes "import" ∷ codes "sigrok" ∷ codes "--rate" ∷ HZ ∷ []) }
    ensures beagle_bus { (name NAME : Text) → (IsFlag NAME → ⊥) → AskForNothing (name ∷ codes "import" ∷ codes "beagle" ∷ codes "--bus" ∷ NAME ∷ []) }
    ensures kernel_unshifted { (name : Text) → AskForNothing (name ∷ codes "import" ∷ codes "kernel" ∷ codes "--unshifted" ∷ []) }
{
    one_recorder();
}

/// Words ask for one thing at most: those that ask for something to be done have no fault, ask for
/// nothing else and for no text about `pmb`, and have a bad format where what they ask for has.
pub fn one_asking()
    ensures one { (words : List Text) (a b : Asking) → AskFor words a → AskFor words b → a ≡ b }
    ensures something { (words : List Text) (asking : Asking) → AskFor words asking → AskForNothing words → ⊥ }
    ensures not_refused { (words : List Text) (asking : Asking) → AskFor words asking → AreRefused words → ⊥ }
    ensures not_told { (words : List Text) (asking : Asking) → AskFor words asking → AskToTell words → ⊥ }
    ensures bad_format { (words : List Text) (asking : Asking) → AskFor words asking → HasBadFormat words → NamesNone asking }
    ensures names_none { (words : List Text) (asking : Asking) → AskFor words asking → NamesNone asking → HasBadFormat words }
{
    one_recorder();
}

//! The program of the crate's page, and each law.

use crate::compare::same;
use pmb_times::{TIME, Times, laws};

#[test]
fn says_which_time_a_word_has(rt: HostRuntime) {
    let mut times = Times::new();
    times.take(b"# 0.5 s\nS ");
    same(&rt, "START", times.of_last_word(), Some(b"0.5".as_slice()));
    times.take(b"P\n# 2 s\n");
    same(&rt, "STOP", times.of_last_word(), None);
    same(&rt, "next", times.of_next_word(), Some(b"2".as_slice()));
    same(&rt, "bytes of a time", TIME, 40);
}

#[test]
fn calls_each_law() {
    laws::time_lines_tell_their_time();
    laws::the_last_time_line_counts();
    laws::each_word_has_a_gap();
    laws::times_stay();
    laws::the_last_word_has_its_time();
    laws::the_next_word_has_its_time();
    laws::times_are_short();
    laws::times_of_a_piece();
}

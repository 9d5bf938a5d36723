//! Words that name files.

use pmb_files::split_words;

#[test]
fn words_are_split(rt: HostRuntime) {
    let words = [
        "pmb",
        "show",
        "-p",
        "board.toml",
        "--late",
        "a.txt",
        "--joined",
        "--",
        "-b.txt",
    ];
    let said = split_words(rt.alloc(), &words).expect(&rt, "memory");
    assert!(rt; said.tool.as_slice() == ["pmb", "show", "--late"].as_slice());
    assert!(rt; said.profiles.as_slice() == ["board.toml"].as_slice());
    assert!(rt; said.is_joined);
    assert!(rt; said.files.as_slice() == ["a.txt", "-b.txt"].as_slice());
    assert!(rt; said.values.is_empty());
    assert!(rt; said.name() == "show");
    assert!(rt; said.names() == ["a.txt", "-b.txt"].as_slice());
    assert!(rt; !said.has_two_profiles());
    assert!(rt; !said.has_several());
    assert!(rt; !said.has_two_inputs());
    assert!(rt; !said.names_nothing());
}

#[test]
fn values_are_split(rt: HostRuntime) {
    let words = ["pmb", "decode", "L11", "-1", "0xf3ff"];
    let said = split_words(rt.alloc(), &words).expect(&rt, "memory");
    assert!(rt; said.tool.as_slice() == ["pmb", "decode", "L11"].as_slice());
    assert!(rt; said.values.as_slice() == ["-1", "0xf3ff"].as_slice());
    assert!(rt; said.names() == ["-"].as_slice());
}

#[test]
fn contradictions_are_seen(rt: HostRuntime) {
    let two_profiles = ["pmb", "show", "--sample", "-p", "a.toml"];
    assert!(rt;
        split_words(rt.alloc(), &two_profiles)
            .expect(&rt, "memory")
            .has_two_profiles()
    );
    let two_inputs = ["pmb", "build", "a.txt", "b.txt"];
    let said = split_words(rt.alloc(), &two_inputs).expect(&rt, "memory");
    assert!(rt; said.has_several() && said.has_two_inputs());
    let nothing = ["pmb", "show", "--sample"];
    assert!(rt;
        split_words(rt.alloc(), &nothing)
            .expect(&rt, "memory")
            .names_nothing()
    );
}

use batch_ids::{Listed, Refusal, T256};
use jsl_model::{Then, Transition};
use std::alloc::Global;
use std::test::Fail;
use transitions::{find_match, first_match, matches};

/// Patterns and texts, and whether they match.
const MATCHES: [(&str, &str, bool); 13] = [
    ("a*?", "ab", true),
    ("a*?", "a", false),
    ("a*?", "", false),
    ("*", "", true),
    ("?", "é", true),
    ("??", "é", false),
    ("", "", true),
    ("", "a", false),
    ("*a*a", "aa", true),
    ("*a*a", "a", false),
    ("*a*a", "bananas", false),
    ("*ab*abc", "abababc", true),
    ("é*", "ecole", false),
];

#[test]
fn patterns_match_by_pieces(rt: HostRuntime) {
    for (pattern, text, expected) in &MATCHES {
        assert!(rt; matches(pattern, text) == *expected, "{pattern} {text}");
    }
}

/// Returns transition elements with these patterns, which fail the job.
fn transitions_on(alloc: Global, patterns: &[&str]) -> Result<Listed<Transition>, Refusal> {
    let mut transitions = Listed::new(alloc);
    for pattern in patterns {
        let on = T256::new(alloc, pattern)?;
        transitions.push(Transition {
            on,
            then: Then::Fail { exit_status: None },
        })?;
    }
    Ok(transitions)
}

#[test]
fn the_first_written_match_counts(rt: HostRuntime) -> Result<(), Fail> {
    let exit = T256::new(rt.alloc(), "ABC")?;
    let listed = transitions_on(rt.alloc(), &["B", "A*", "AB?", "*"])?;
    let placed = are_placed(listed.as_slice());
    let found = is_second_found(listed.as_slice(), &exit);
    drop(listed);
    assert!(rt; placed && found);
    Ok(())
}

/// Checks whether the index of the first match of four is returned.
fn are_placed(transitions: &[Transition]) -> bool {
    transitions.len() == 4
        && [("ABC", 1), ("B", 0), ("", 3), ("CAB", 3)].iter().all(|(exit, place)| first_match(
            transitions,
            exit,
        ) == Some(*place))
        && first_match(&transitions[..3], "CAB").is_none()
}

/// Checks whether the second of them is found, and nothing is found without it.
fn is_second_found(transitions: &[Transition], exit: &T256) -> bool {
    matches!(find_match(transitions, exit), Some(second) if second.on.as_str() == "A*")
        && find_match(&transitions[..1], exit).is_none()
}

use json_members::{
    has_only, is_text, list_at, number_at, object_at, optional_number, read_value, truth_at,
};
use serde_json::Value;
use std::test::Fail;

#[test]
fn what_is_no_number(rt: HostRuntime) -> Result<(), Fail> {
    let line =
        br#"{"a":-0,"b":1.0,"c":1e3,"d":18446744073709551616,"e":18446744073709551615,"f":null}"#;
    let value = read_value(rt.alloc(), line)?.ok_or("no value")?;
    let found = are_numbers_found(&value);
    drop(value);
    assert!(rt; found);
    Ok(())
}

/// Checks whether the number is found, and nothing else is found as a number.
fn are_numbers_found(value: &Value) -> bool {
    ["a", "b", "c", "d", "f", "g"]
        .iter()
        .all(|name| number_at(value, name).is_none())
        && number_at(value, "e") == Some(u64::MAX)
        && optional_number(value, "f").is_none()
        && optional_number(value, "g") == Some(None)
}

#[test]
fn names_and_texts(rt: HostRuntime) -> Result<(), Fail> {
    let line = br#"{"\u0064o":"x","do":"start","on":true,"list":[1,[]],"in":{}}"#;
    let value = read_value(rt.alloc(), line)?.ok_or("no value")?;
    let found = are_members_found(&value);
    drop(value);
    assert!(rt; found);
    Ok(())
}

/// Checks whether each member is found by its name, with its kind.
fn are_members_found(value: &Value) -> bool {
    is_text(value, "do", "start")
        && has_only(value, &["in", "on", "list", "do", "at"])
        && !has_only(value, &["in", "on", "list"])
        && truth_at(value, "on") == Some(true)
        && list_at(value, "list").map(|list| list.len()) == Some(2)
        && object_at(value, "in").is_some()
}

#[test]
fn what_is_no_json(rt: HostRuntime) -> Result<(), Fail> {
    let alloc = rt.alloc();
    let lines: [&[u8]; 5] = [
        b"",
        b"{\"a\":1e400}",
        b"\"\xff\"",
        b"{} {}",
        b"{\"a\":\"\\ud800\"}",
    ];
    for line in lines {
        assert!(rt; read_value(alloc, line)?.is_none());
    }
    Ok(())
}

// Values inside a value, over the nodes of a text.
ghost use Rattle.std.specs.Prelude.{◌≡◌, ℕ, ◌+◌, ◌<◌, List, length, map, drop, Some, None, string_bytes};
ghost use Rattle.json.specs.Token.{Token};
ghost use Rattle.json.specs.Json.{Json, value};
ghost use Rattle.json.specs.Find.{BeginsWith};
ghost use Rattle.json.specs.Tape.{node_token, Linked};
ghost use Rattle.json.specs.Tree.{json_tokens};
ghost use Rattle.json_places.specs.Inside.{item_of, member_of, step_of, value_at};
ghost use Rattle.json_places.specs.Walk.{tokens_from, StandsAt};

use crate::path::Step;
use json::Node;

/// Returns the place after the value that begins at a node.
fn place_after(nodes: &[Node<'_>], at: usize) -> usize
    requires within { at < length nodes.now }
    requires linked { Linked (map node_token nodes.now) 0 nodes.now }
    ensures value { (depth : ℕ) (j : Json) (rest : List Token)
        → value depth (tokens_from at nodes.now) ≡ Some (j, rest)
        → (rest ≡ tokens_from result nodes.now) × (result ≡ at + length (json_tokens j)) }
    ensures later { at < result }
{
    match nodes[at] {
        Node::Object(end) | Node::Array(end) => end,
        _ => at + 1,
    }
}

fn item_at(nodes: &[Node<'_>], at: usize, index: usize) -> Option<usize>
    requires within { at < length nodes.now }
    requires linked { Linked (map node_token nodes.now) 0 nodes.now }
    ensures { (j : Json) → BeginsWith (tokens_from at nodes.now) j
        → StandsAt nodes.now at result (item_of index j) }
{
    let Node::Array(_) = nodes[at] else {
        return None;
    };
    let mut next = at + 1;
    let mut left = index;
    loop {
        if next >= nodes.len() {
            return None;
        }
        if let Node::EndArray = nodes[next] {
            return None;
        }
        if left == 0 {
            return Some(next);
        }
        next = place_after(nodes, next);
        left -= 1;
    }
}

fn member_at(nodes: &[Node<'_>], at: usize, name: &str) -> Option<usize>
    requires within { at < length nodes.now }
    requires linked { Linked (map node_token nodes.now) 0 nodes.now }
    ensures { (j : Json) → BeginsWith (tokens_from at nodes.now) j
        → StandsAt nodes.now at result (member_of name.now j) }
{
    let Node::Object(_) = nodes[at] else {
        return None;
    };
    let mut next = at + 1;
    let mut found = None;
    while next < nodes.len() - 1 {
        let Node::Key(key) = nodes[next] else {
            return found;
        };
        let value = next + 1;
        if key == name {
            found = Some(value);
        }
        next = place_after(nodes, value);
    }
    found
}

fn step_at(nodes: &[Node<'_>], at: usize, step: &Step) -> Option<usize>
    requires linked { Linked (map node_token nodes.now) 0 nodes.now }
    ensures { (j : Json) → BeginsWith (tokens_from at nodes.now) j
        → StandsAt nodes.now at result (step_of step.now j) }
{
    if at >= nodes.len() {
        return None;
    }
    match step {
        Step::Item(index) => item_at(nodes, at, *index),
        Step::Member(name) => member_at(nodes, at, name.as_str()),
    }
}

/// Returns the number of the token at which the value at the end of a path begins.
pub(crate) fn token_of(nodes: &[Node<'_>], path: &[Step]) -> Option<usize>
    requires linked { Linked (map node_token nodes.now) 0 nodes.now }
    ensures { (j : Json) → BeginsWith (tokens_from 0 nodes.now) j
        → StandsAt nodes.now 0 result (value_at path.now j) }
{
    let mut at = 0;
    for step in path {
        at = step_at(nodes, at, step)?;
    }
    Some(at)
}

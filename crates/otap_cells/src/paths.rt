ghost use Rattle.std.specs.Prelude.{◌≡◌, ◌≢◌, ◌∷◌, ◌++◌, ◌==◌, ℕ, List, map, MatchOption};
ghost use Rattle.std.specs.List.{list_any, join_with_byte};
ghost use Rattle.std.specs.Str.{bytes_eq};
ghost use Rattle.otap_cells.specs.Columns.{columns_of, has_dot, place_of_path};

use crate::payload::Kind;
use crate::profile::columns;

/// The index of the column with this path of names, the outermost struct's first. A name that holds a dot is on no path.
pub fn column_of(kind: Kind, path: &[&[u8]]) -> Option<u32>
    ensures { result ≡ place_of_path (columns_of kind) (map (λ name. name.now) path.now) }
{
    if some_dot(path) {
        return None;
    }
    let columns = columns(kind);
    'columns: for place in 0..columns.len() {
        if is_joined(path, columns[place].name.as_bytes()) {
            return Some(place as u32);
        }
    }
    None
}

fn some_dot(path: &[&[u8]]) -> bool
    ensures { result ≡ list_any has_dot (map (λ name. name.now) path.now) }
{
    'names: for name in path {
        if name.contains(&b'.') {
            return true;
        }
    }
    false
}

/// Whether the names, joined by dots, are this one.
fn is_joined(path: &[&[u8]], dotted: &[u8]) -> bool
    ensures { result ≡ bytes_eq (join_with_byte 46 (map (λ name. name.now) path.now)) dotted.now }
{
    let Some((first, inner)) = path.split_first() else {
        return dotted.is_empty();
    };
    if inner.is_empty() {
        return *first == dotted;
    }
    match after_dot(dotted, first) {
        Some(rest) => is_joined(inner, rest),
        None => false,
    }
}

/// What follows the name and a dot.
fn after_dot<'a>(dotted: &'a [u8], name: &[u8]) -> Option<&'a [u8]>
    ensures { MatchOption result ((rest : List ℕ) → dotted.now ≢ name.now ++ 46 ∷ rest) (λ rest. dotted.now ≡ name.now ++ 46 ∷ rest.now) }
{
    let rest = dotted.strip_prefix(name)?;
    let (dot, inner) = rest.split_first()?;
    if *dot == b'.' { Some(inner) } else { None }
}

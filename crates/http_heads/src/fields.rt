//! A search of a head's fields by name, and what it finds: no value, one, or several.

ghost use Rattle.std.specs.Prelude.{◌≡◌, ◌++◌, ◌∷◌, [], List, ℕ, length, map, All, if◌then◌else◌};
ghost use Rattle.httparse.specs.Spans.{IsHeaderWithin, header_bytes};
ghost use Rattle.http_heads.specs.Fields.{eq_ignore_case, values_named};
ghost use Rattle.http_heads.specs.Found.{IsFound};

use httparse::spans::HeaderSpan;

/// The value of a field, without the spaces and tabs around it.
#[derive(Clone, Copy, Debug)]
pub enum Found<'b> {
    /// No field has the name.
    Missing,
    /// One field has the name, and this is its value, which may be empty.
    One(&'b [u8]),
    /// Two or more fields have the name.
    Several,
}

/// One more field of a head: whether it has the name that is looked for, and its value.
fn add<'b>(found: Found<'b>, is_named: bool, value: &'b [u8]) -> Found<'b>
    ensures { (values : List (List ℕ)) → IsFound values found.entry → IsFound (values ++ (if is_named then value.now ∷ [] else [])) result }
{
    if !is_named {
        return found;
    }
    match found {
        Found::Missing => Found::One(value),
        _ => Found::Several,
    }
}

/// Whether two texts are the same but for the case of their ASCII letters.
pub(crate) fn eq_ignore_case(a: &[u8], b: &[u8]) -> bool
    ensures { result ≡ eq_ignore_case a.now b.now }
{
    a.eq_ignore_ascii_case(b)
}

/// Looks for the fields of a name, without letter case. `headers` are spans in `bytes`.
pub fn find_field<'b>(bytes: &'b [u8], headers: &[HeaderSpan], name: &[u8]) -> Found<'b>
    requires { All (IsHeaderWithin (length bytes.now)) headers.now }
    ensures { IsFound (values_named name.now (map (header_bytes bytes.now) headers.now)) result }
{
    let mut found = Found::Missing;
    for header in headers {
        let is_named = eq_ignore_case(header.name.of(bytes), name);
        found = add(found, is_named, header.value.of(bytes));
    }
    found
}

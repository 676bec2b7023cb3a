//! The elements of Connection fields: whether `close` is one of them, without letter case.

ghost use Rattle.std.specs.Prelude.{◌≡◌, length, map, All, reverse, codes, flat_map};
ghost use Rattle.std.specs.List.{list_any};
ghost use Rattle.httparse.specs.Grammar.{skip_ows, trim_ows};
ghost use Rattle.httparse.specs.Spans.{IsHeaderWithin, header_bytes};
ghost use Rattle.http_heads.specs.Fields.{eq_ignore_case, values_named};
ghost use Rattle.http_heads.specs.Words.{words};

use crate::fields::eq_ignore_case;
use httparse::is_space_or_tab;
use httparse::spans::HeaderSpan;

/// The text from its first byte that is no space or tab.
fn trim_start(mut text: &[u8]) -> &[u8]
    ensures { result.now ≡ skip_ows text.now }
{
    while let [first, rest @ ..] = text
        && is_space_or_tab(*first)
    {
        text = rest;
    }
    text
}

/// The text through its last byte that is no space or tab.
fn trim_end(mut text: &[u8]) -> &[u8]
    ensures { result.now ≡ reverse (skip_ows (reverse text.now)) }
{
    while let [rest @ .., last] = text
        && is_space_or_tab(*last)
    {
        text = rest;
    }
    text
}

/// The text without the spaces and tabs around it.
fn trim(text: &[u8]) -> &[u8]
    ensures { result.now ≡ trim_ows text.now }
{
    trim_end(trim_start(text))
}

/// Whether one of the elements of a value, which commas separate, is `close`.
fn has_close(value: &[u8]) -> bool
    ensures { result ≡ list_any (λ word. eq_ignore_case word (codes "close")) (words value.now) }
{
    let mut rest = value;
    while let Some(comma) = rest.iter().position(|b| *b == b',') {
        if eq_ignore_case(trim(&rest[..comma]), b"close") {
            return true;
        }
        rest = &rest[comma + 1..];
    }
    eq_ignore_case(trim(rest), b"close")
}

/// Whether one of the elements of the Connection fields is `close`.
pub(crate) fn lists_close(bytes: &[u8], headers: &[HeaderSpan]) -> bool
    requires { All (IsHeaderWithin (length bytes.now)) headers.now }
    ensures { result ≡ list_any (λ word. eq_ignore_case word (codes "close"))
        (flat_map words (values_named (codes "connection") (map (header_bytes bytes.now) headers.now))) }
{
    let mut close = false;
    for header in headers {
        let is_connection = eq_ignore_case(header.name.of(bytes), b"connection");
        close |= is_connection & has_close(header.value.of(bytes));
    }
    close
}

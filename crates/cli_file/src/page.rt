//! The first page of a new database file, with a sum at its end or without.

ghost use Rattle.std.specs.Prelude.{◌≡◌, ◌++◌, replicate};
ghost use Rattle.sqlite_pool.specs.Stored.{sum_bytes};
ghost use Rattle.cli_file.specs.Pages.{page_of_new};

use sqlite_wal::checksum_of;

/// How long a page of a new file is, in bytes.
pub(crate) const PAGE_LEN: usize = 512;

/// Where the sum of a page begins. It is of the bytes before it.
const SUM_AT: usize = 504;

/// How long the beginning of a first page is, in bytes. What follows is 0.
const HEAD_LEN: usize = 107;

/// The header of a database of one page of 512 bytes, which are all used, and of an empty leaf. By offset: 16 how long a page is;
/// 18 and 19 a log is kept; 20 the bytes kept at each page's end; 28 one page; 44 the schema's format; 56 UTF-8; 96 SQLite 3.45.0;
/// 100 a leaf of a table with no cell; 105 where cells begin.
const PLAIN: [u8; HEAD_LEN] = [
    83, 81, 76, 105, 116, 101, 32, 102, 111, 114, 109, 97, 116, 32, 51, 0, 2, 0, 2, 2, 0, 64, 32,
    32, 0, 0, 0, 0, 0, 0, 0, 1, 0, 0, 0, 0, 0, 0, 0, 0, 0, 0, 0, 1, 0, 0, 0, 4, 0, 0, 0, 0, 0, 0,
    0, 0, 0, 0, 0, 1, 0, 0, 0, 0, 0, 0, 0, 0, 0, 0, 0, 0, 0, 0, 0, 0, 0, 0, 0, 0, 0, 0, 0, 0, 0, 0,
    0, 0, 0, 0, 0, 0, 0, 0, 0, 0, 0, 46, 118, 136, 13, 0, 0, 0, 0, 2, 0,
];

/// The same, where the last eight bytes of each page are its sum.
const WITH_SUM: [u8; HEAD_LEN] = [
    83, 81, 76, 105, 116, 101, 32, 102, 111, 114, 109, 97, 116, 32, 51, 0, 2, 0, 2, 2, 8, 64, 32,
    32, 0, 0, 0, 0, 0, 0, 0, 1, 0, 0, 0, 0, 0, 0, 0, 0, 0, 0, 0, 1, 0, 0, 0, 4, 0, 0, 0, 0, 0, 0,
    0, 0, 0, 0, 0, 1, 0, 0, 0, 0, 0, 0, 0, 0, 0, 0, 0, 0, 0, 0, 0, 0, 0, 0, 0, 0, 0, 0, 0, 0, 0, 0,
    0, 0, 0, 0, 0, 0, 0, 0, 0, 0, 0, 46, 118, 136, 13, 0, 0, 0, 0, 1, 248,
];

/// A page that begins so.
fn laid(head: &[u8; HEAD_LEN]) -> [u8; PAGE_LEN]
    ensures { result ≡ head.now ++ replicate 405 0 }
{
    let mut page = [0; PAGE_LEN];
    page[..HEAD_LEN].copy_from_slice(head);
    page
}

/// The sum of these bytes, as SQLite's cksumvfs has it.
fn sum_of(bytes: &[u8]) -> [u8; 8]
    ensures { result ≡ sum_bytes bytes.now }
{
    let (first, second) = checksum_of(false, (0, 0), bytes);
    let (a, b) = (first.to_le_bytes(), second.to_le_bytes());
    [a[0], a[1], a[2], a[3], b[0], b[1], b[2], b[3]]
}

/// The first page of a new file, which is all of it: an empty database, whose pages end in sums where these are asked for.
pub(crate) fn first_page(sums: bool) -> [u8; PAGE_LEN]
    ensures { result ≡ page_of_new sums }
{
    if !sums {
        return laid(&PLAIN);
    }
    let mut page = laid(&WITH_SUM);
    let sum = sum_of(&page[..SUM_AT]);
    page[SUM_AT..].copy_from_slice(&sum);
    page
}

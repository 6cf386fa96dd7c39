//! Rows of files where the copy of a server is of a later version than commits made: each part answers so, but no order
//! of the entries is founded. Beside them, a line of the board that no session reaches.

ghost use Rattle.tq_tables.specs.Parts.{AreLegal};

use super::asked::journals_of;
use std::alloc::Global;
use std::mem::forget;
use std::test::*;
use tq_board::lines::{push_file, push_lock};
use tq_locks::Mode;
use tq_merge::{Fault, explain};
use tq_shape::{Levels, Memory, ServerId};
use tq_store::FileName;
use tq_tables::{FileRow, Journals, LockRow, Tables};

/// Commits of `b`, and of `a` and `b`; what is read is not written. Server 1 has both files as they were committed last,
/// server 2 an old `b` and a later `a`, and server 3 none.
const FILE: &str =
    "{\"desk\":[{\"ask\":{\"is\":\"begin\"},\"reply\":{\"is\":\"txn\",\"txn\":1}},{\"ask\":{\"is\":\"begin\"},\"reply\":{\"is\":\"txn\",\"txn\":2}},{\"ask\":{\"is\":\"begin\"},\"reply\":{\"is\":\"txn\",\"txn\":3}},{\"ask\":{\"is\":\"begin\"},\"reply\":{\"is\":\"txn\",\"txn\":4}},{\"ask\":{\"is\":\"commit\",\"ops\":[{\"content\":\"78\",\"file\":\"b\",\"grants\":[{\"content\":\"\",\"mode\":\"exclusive\",\"number\":1,\"server\":1,\"version\":0},{\"content\":\"\",\"mode\":\"exclusive\",\"number\":1,\"server\":2,\"version\":0}],\"kind\":\"write\",\"version\":1},{\"content\":\"\",\"file\":\"c\",\"grants\":[{\"content\":\"\",\"mode\":\"shared\",\"number\":2,\"server\":1,\"version\":0},{\"content\":\"\",\"mode\":\"shared\",\"number\":2,\"server\":2,\"version\":0}],\"kind\":\"read\",\"version\":0}],\"txn\":1,\"votes\":[{\"held\":[{\"file\":\"b\",\"mode\":\"exclusive\",\"since\":1},{\"file\":\"c\",\"mode\":\"shared\",\"since\":2}],\"number\":3,\"server\":1,\"writes\":[{\"content\":\"78\",\"file\":\"b\",\"version\":1}]},{\"held\":[{\"file\":\"b\",\"mode\":\"exclusive\",\"since\":1},{\"file\":\"c\",\"mode\":\"shared\",\"since\":2}],\"number\":3,\"server\":2,\"writes\":[{\"content\":\"78\",\"file\":\"b\",\"version\":1}]}]},\"reply\":{\"is\":\"committed\",\"serial\":1}},{\"ask\":{\"is\":\"commit\",\"ops\":[{\"content\":\"79\",\"file\":\"a\",\"grants\":[{\"content\":\"\",\"mode\":\"exclusive\",\"number\":5,\"server\":1,\"version\":0},{\"content\":\"\",\"mode\":\"exclusive\",\"number\":5,\"server\":2,\"version\":0}],\"kind\":\"write\",\"version\":1},{\"content\":\"7a\",\"file\":\"b\",\"grants\":[{\"content\":\"78\",\"mode\":\"exclusive\",\"number\":6,\"server\":1,\"version\":1},{\"content\":\"78\",\"mode\":\"exclusive\",\"number\":6,\"server\":2,\"version\":1}],\"kind\":\"write\",\"version\":2}],\"txn\":2,\"votes\":[{\"held\":[{\"file\":\"a\",\"mode\":\"exclusive\",\"since\":5},{\"file\":\"b\",\"mode\":\"exclusive\",\"since\":6}],\"number\":7,\"server\":1,\"writes\":[{\"content\":\"79\",\"file\":\"a\",\"version\":1},{\"content\":\"7a\",\"file\":\"b\",\"version\":2}]},{\"held\":[{\"file\":\"a\",\"mode\":\"exclusive\",\"since\":5},{\"file\":\"b\",\"mode\":\"exclusive\",\"since\":6}],\"number\":7,\"server\":2,\"writes\":[{\"content\":\"79\",\"file\":\"a\",\"version\":1},{\"content\":\"7a\",\"file\":\"b\",\"version\":2}]}]},\"reply\":{\"is\":\"committed\",\"serial\":2}}],\"format\":2,\"levels\":2,\"limits\":{\"entries\":1000000,\"files\":1000,\"ops\":64},\"servers\":[[{\"ask\":{\"content\":\"78\",\"file\":\"a\",\"from\":{\"number\":1,\"server\":1},\"is\":\"refresh\",\"version\":1},\"reply\":{\"is\":\"refreshed\"}},{\"ask\":{\"content\":\"78\",\"file\":\"b\",\"from\":{\"number\":1,\"server\":1},\"is\":\"refresh\",\"version\":2},\"reply\":{\"is\":\"refreshed\"}}],[{\"ask\":{\"content\":\"78\",\"file\":\"a\",\"from\":{\"number\":1,\"server\":1},\"is\":\"refresh\",\"version\":5},\"reply\":{\"is\":\"refreshed\"}},{\"ask\":{\"content\":\"78\",\"file\":\"b\",\"from\":{\"number\":1,\"server\":1},\"is\":\"refresh\",\"version\":1},\"reply\":{\"is\":\"refreshed\"}}],[]],\"view\":[]}";

const ROWS: &str = "file b version 2 current 1 stale 2 3\nfile a version 1 current 1 2 stale 3\n";

fn text_of(alloc: Global, rows: &[FileRow]) -> Result<String, Memory> {
    let mut text = String::new(alloc);
    for row in rows {
        push_file(&mut text, row)?;
    }
    Ok(text)
}

fn are_current_and_stale(alloc: Global, rows: &[FileRow]) -> bool {
    match text_of(alloc, rows) {
        Ok(text) => text.as_str() == ROWS,
        Err(_) => false,
    }
}

fn has_rows(alloc: Global, journals: &Journals) -> bool
    requires { AreLegal journals.now }
{
    match Tables::of(alloc, journals) {
        Ok(tables) => {
            let are_rows = are_current_and_stale(alloc, tables.files());
            forget(tables);
            are_rows
        }
        Err(_) => false,
    }
}

/// Whether the journals are legal but stuck, and have the rows.
fn are_stuck_with_rows(alloc: Global, journals: &Journals) -> bool {
    match explain(alloc, journals) {
        Err(Fault::Stuck { placed }) => {
            forget(placed);
            has_rows(alloc, journals)
        }
        Err(_) => false,
        Ok(order) => {
            forget(order);
            false
        }
    }
}

fn has_rows_of_file(alloc: Global) -> bool {
    match journals_of(alloc, FILE) {
        Some(journals) => {
            let are_rows = are_stuck_with_rows(alloc, &journals);
            forget(journals);
            are_rows
        }
        None => false,
    }
}

#[test]
fn a_file_is_current_where_its_last_write_or_a_later_one_is(rt: HostRuntime) {
    assert!(rt; has_rows_of_file(rt.alloc()));
}

/// A shared lock since the greatest number.
fn lock_row() -> Result<LockRow, Fail> {
    let levels = Levels::new(2).ok_or("levels")?;
    Ok(LockRow {
        server: ServerId::new(levels, 3),
        file: FileName::new(b"a").ok_or("name")?,
        txn: 2,
        mode: Mode::Shared,
        since: 18446744073709551615,
        version: 0,
    })
}

#[test]
fn a_lock_is_printed_with_the_greatest_number(rt: HostRuntime) -> Result<(), Fail> {
    let row = lock_row()?;
    let mut text = String::new(rt.alloc());
    push_lock(&mut text, &row)?;
    let wanted = "lock 3 a 2 shared since 18446744073709551615 version 0\n";
    assert!(rt; text.as_str() == wanted);
    Ok(())
}

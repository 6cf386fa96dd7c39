//! A journal file that has each kind of ask, reply, refusal and verdict, as no cluster would make it: the program writes few of
//! them, and here each is read and written again.

use super::asked::journals_of;
use std::alloc::Global;
use std::mem::forget;
use std::test::*;
use tq_board::journals_to_json;
use tq_tables::Journals;

const TEXT: &str = "\
{\"desk\":[{\"ask\":{\"is\":\"begin\"},\"reply\":{\"is\":\"txn\",\"txn\":1}},\
{\"ask\":{\"is\":\"resolve\",\"txn\":1},\"reply\":{\"is\":\"committed\",\"serial\":1}},\
{\"ask\":{\"is\":\"commit\",\"ops\":[],\"txn\":1,\"votes\":[]},\"reply\":{\"is\":\"verdict\",\"verdict\":{\"is\":\"abort\"}}},\
{\"ask\":{\"is\":\"commit\",\"ops\":[{\"content\":\"68656c6c6f\",\"file\":\"a\",\"grants\":[{\"content\":\"\",\"mode\":\"exclusive\",\"number\":1,\"server\":1,\"version\":0}],\"kind\":\"write\",\"version\":1},{\"content\":\"\",\"file\":\"b\",\"grants\":[],\"kind\":\"read\",\"version\":0}],\"txn\":1,\"votes\":[{\"held\":[{\"file\":\"a\",\"mode\":\"exclusive\",\"since\":1}],\"number\":2,\"server\":1,\"writes\":[{\"content\":\"68656c6c6f\",\"file\":\"a\",\"version\":1}]},{\"held\":[],\"number\":9,\"server\":63,\"writes\":[]}]},\"reply\":{\"is\":\"verdict\",\"verdict\":{\"is\":\"commit\",\"votes\":[{\"number\":4,\"server\":1}]}}},\
{\"ask\":{\"is\":\"begin\"},\"reply\":{\"code\":21,\"is\":\"refused\"}},\
{\"ask\":{\"is\":\"resolve\",\"txn\":1},\"reply\":{\"code\":22,\"is\":\"refused\",\"verdict\":{\"is\":\"abort\"}}},\
{\"ask\":{\"is\":\"commit\",\"ops\":[],\"txn\":1,\"votes\":[]},\"reply\":{\"code\":23,\"is\":\"refused\",\"rule\":1}},\
{\"ask\":{\"is\":\"commit\",\"ops\":[{\"content\":\"68656c6c6f\",\"file\":\"a\",\"grants\":[{\"content\":\"\",\"mode\":\"exclusive\",\"number\":1,\"server\":1,\"version\":0}],\"kind\":\"write\",\"version\":1},{\"content\":\"\",\"file\":\"b\",\"grants\":[],\"kind\":\"read\",\"version\":0}],\"txn\":1,\"votes\":[{\"held\":[{\"file\":\"a\",\"mode\":\"exclusive\",\"since\":1}],\"number\":2,\"server\":1,\"writes\":[{\"content\":\"68656c6c6f\",\"file\":\"a\",\"version\":1}]},{\"held\":[],\"number\":9,\"server\":63,\"writes\":[]}]},\"reply\":{\"code\":23,\"is\":\"refused\",\"rule\":2}},\
{\"ask\":{\"is\":\"begin\"},\"reply\":{\"code\":23,\"is\":\"refused\",\"rule\":3}},\
{\"ask\":{\"is\":\"resolve\",\"txn\":1},\"reply\":{\"code\":23,\"is\":\"refused\",\"rule\":4}},\
{\"ask\":{\"is\":\"commit\",\"ops\":[],\"txn\":1,\"votes\":[]},\"reply\":{\"code\":23,\"is\":\"refused\",\"rule\":5}},\
{\"ask\":{\"is\":\"commit\",\"ops\":[{\"content\":\"68656c6c6f\",\"file\":\"a\",\"grants\":[{\"content\":\"\",\"mode\":\"exclusive\",\"number\":1,\"server\":1,\"version\":0}],\"kind\":\"write\",\"version\":1},{\"content\":\"\",\"file\":\"b\",\"grants\":[],\"kind\":\"read\",\"version\":0}],\"txn\":1,\"votes\":[{\"held\":[{\"file\":\"a\",\"mode\":\"exclusive\",\"since\":1}],\"number\":2,\"server\":1,\"writes\":[{\"content\":\"68656c6c6f\",\"file\":\"a\",\"version\":1}]},{\"held\":[],\"number\":9,\"server\":63,\"writes\":[]}]},\"reply\":{\"code\":23,\"is\":\"refused\",\"rule\":6}},\
{\"ask\":{\"is\":\"begin\"},\"reply\":{\"code\":24,\"is\":\"refused\"}},\
{\"ask\":{\"is\":\"resolve\",\"txn\":1},\"reply\":{\"code\":25,\"is\":\"refused\"}}],\"format\":2,\"levels\":2,\"limits\":{\"entries\":20,\"files\":2,\"ops\":3},\"servers\":[\
[{\"ask\":{\"file\":\"a\",\"is\":\"lock\",\"mode\":\"shared\",\"txn\":1},\"reply\":{\"content\":\"\",\"is\":\"granted\",\"version\":0}},\
{\"ask\":{\"file\":\"a-b_c.0\",\"is\":\"lock\",\"mode\":\"exclusive\",\"txn\":18446744073709551615},\"reply\":{\"content\":\"68656c6c6f\",\"is\":\"granted\",\"version\":3}},\
{\"ask\":{\"is\":\"prepare\",\"txn\":1,\"writes\":[]},\"reply\":{\"held\":[],\"is\":\"yes\",\"writes\":[]}},\
{\"ask\":{\"is\":\"prepare\",\"txn\":1,\"writes\":[{\"content\":\"68656c6c6f\",\"file\":\"a\",\"version\":1},{\"content\":\"\",\"file\":\"b\",\"version\":2}]},\"reply\":{\"held\":[{\"file\":\"a\",\"mode\":\"exclusive\",\"since\":1},{\"file\":\"b\",\"mode\":\"shared\",\"since\":2}],\"is\":\"yes\",\"writes\":[{\"content\":\"0123456789abcdef\",\"file\":\"a\",\"version\":1}]}},\
{\"ask\":{\"cite\":2,\"is\":\"decide\",\"txn\":1,\"verdict\":{\"is\":\"abort\"}},\"reply\":{\"is\":\"installed\"}},\
{\"ask\":{\"cite\":2,\"is\":\"decide\",\"txn\":1,\"verdict\":{\"is\":\"commit\",\"votes\":[{\"number\":4,\"server\":1},{\"number\":0,\"server\":900}]}},\"reply\":{\"is\":\"discarded\"}},\
{\"ask\":{\"is\":\"release\",\"txn\":0},\"reply\":{\"is\":\"released\"}},\
{\"ask\":{\"file\":\"abcdefghijklmnopqrstuvwxyz012345\",\"is\":\"peek\"},\"reply\":{\"content\":\"68656c6c6f\",\"is\":\"copy\",\"version\":1}},\
{\"ask\":{\"content\":\"00ff\",\"file\":\"a\",\"from\":{\"number\":3,\"server\":2},\"is\":\"refresh\",\"version\":1},\"reply\":{\"is\":\"refreshed\"}},\
{\"ask\":{\"is\":\"crash\"},\"reply\":{\"is\":\"crashed\"}},\
{\"ask\":{\"is\":\"return\"},\"reply\":{\"is\":\"returned\"}},\
{\"ask\":{\"after\":4294967295,\"ask\":{\"is\":\"release\",\"txn\":1},\"is\":\"crashin\"},\"reply\":{\"code\":11,\"is\":\"refused\"}},\
{\"ask\":{\"after\":0,\"ask\":{\"file\":\"a\",\"is\":\"peek\"},\"is\":\"crashin\"},\"reply\":{\"code\":12,\"is\":\"refused\"}}],[],[\
{\"ask\":{\"file\":\"a\",\"is\":\"lock\",\"mode\":\"shared\",\"txn\":1},\"reply\":{\"code\":13,\"is\":\"refused\"}},\
{\"ask\":{\"file\":\"a-b_c.0\",\"is\":\"lock\",\"mode\":\"exclusive\",\"txn\":18446744073709551615},\"reply\":{\"by\":2,\"code\":14,\"is\":\"refused\"}},\
{\"ask\":{\"is\":\"prepare\",\"txn\":1,\"writes\":[]},\"reply\":{\"code\":15,\"is\":\"refused\"}},\
{\"ask\":{\"is\":\"prepare\",\"txn\":1,\"writes\":[{\"content\":\"68656c6c6f\",\"file\":\"a\",\"version\":1},{\"content\":\"\",\"file\":\"b\",\"version\":2}]},\"reply\":{\"code\":16,\"file\":\"a\",\"is\":\"refused\"}},\
{\"ask\":{\"cite\":2,\"is\":\"decide\",\"txn\":1,\"verdict\":{\"is\":\"abort\"}},\"reply\":{\"code\":17,\"is\":\"refused\"}},\
{\"ask\":{\"cite\":2,\"is\":\"decide\",\"txn\":1,\"verdict\":{\"is\":\"commit\",\"votes\":[{\"number\":4,\"server\":1},{\"number\":0,\"server\":900}]}},\"reply\":{\"code\":18,\"is\":\"refused\"}},\
{\"ask\":{\"is\":\"release\",\"txn\":0},\"reply\":{\"code\":19,\"is\":\"refused\"}}]],\"view\":[\
{\"ask\":{\"is\":\"setcost\",\"read\":5,\"server\":2,\"write\":7},\"reply\":{\"is\":\"costset\"}},\
{\"ask\":{\"is\":\"mark\",\"server\":2,\"up\":false},\"reply\":{\"is\":\"marked\"}},\
{\"ask\":{\"is\":\"mark\",\"server\":18446744073709551615,\"up\":true},\"reply\":{\"cost\":2,\"is\":\"chosen\",\"servers\":[1,2]}},\
{\"ask\":{\"is\":\"choose\",\"purpose\":\"read\"},\"reply\":{\"code\":31,\"is\":\"refused\"}},\
{\"ask\":{\"is\":\"setcost\",\"read\":5,\"server\":2,\"write\":7},\"reply\":{\"code\":32,\"is\":\"refused\"}},\
{\"ask\":{\"is\":\"choose\",\"purpose\":\"write\"},\"reply\":{\"code\":33,\"is\":\"refused\",\"servers\":[2,3]}}]}\n";

fn is_written(alloc: Global, journals: &Journals) -> bool {
    match journals_to_json(alloc, journals) {
        Ok(text) => text.as_str() == TEXT,
        Err(_) => false,
    }
}

fn is_written_again(alloc: Global) -> bool {
    match journals_of(alloc, TEXT) {
        Some(journals) => {
            let is_written = is_written(alloc, &journals);
            forget(journals);
            is_written
        }
        None => false,
    }
}

#[test]
fn each_kind_of_entry_is_written_as_it_was_read(rt: HostRuntime) {
    assert!(rt; is_written_again(rt.alloc()));
}

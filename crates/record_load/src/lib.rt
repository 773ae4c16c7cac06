// Lists of a record, each loaded to the front of a list that is lent; what stands behind it stays as it was.
//
// This serves the crate record_replay and is no call for users.
#![tactic(auto)]

ghost use Rattle.std.specs.Prelude.{◌≡◌, ◌++◌, ◌≤◌, length, map, drop};
ghost use Rattle.words.specs.Lists.{numbers_of, flags_of, ends_of};
ghost use Rattle.record_layout.specs.Order.{count_of, list_in};

use record_layout::{Layout, count, place, wide};
use words::{Kept, load};

// List k, of whatever its words are kept for.
fn load_list<T: Kept>(bytes: &[u8], l: Layout, k: usize, list: &mut [T])
    requires { count_of l k ≤ length list.old }
    ensures { list.new ≡ map T.of_word (list_in bytes.now l k) ++ drop (count_of l k) list.old }
{
    let n = wide(count(l, k));
    load(bytes, place(l, k), &mut list[..n]);
}

pub fn numbers_in(bytes: &[u8], l: Layout, k: usize, list: &mut [i32])
    requires { count_of l k ≤ length list.old }
    ensures { list.new ≡ numbers_of (list_in bytes.now l k) ++ drop (count_of l k) list.old }
{
    load_list(bytes, l, k, list);
}

pub fn flags_in(bytes: &[u8], l: Layout, k: usize, list: &mut [u8])
    requires { count_of l k ≤ length list.old }
    ensures { list.new ≡ flags_of (list_in bytes.now l k) ++ drop (count_of l k) list.old }
{
    load_list(bytes, l, k, list);
}

pub fn ends_in(bytes: &[u8], l: Layout, k: usize, list: &mut [u16])
    requires { count_of l k ≤ length list.old }
    ensures { list.new ≡ ends_of (list_in bytes.now l k) ++ drop (count_of l k) list.old }
{
    load_list(bytes, l, k, list);
}

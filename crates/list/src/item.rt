// The items of a list, one after the other.
ghost use Rattle.std.specs.Prelude.{◌≡◌, length, MatchOption};
ghost use Rattle.list.specs.Items.{parse, item_count, FirstItem, NoFirst};
ghost use Rattle.list.specs.Table.{body_length as Table-body_length};

use crate::table::{ItemKind, row_of};

// An item at the front of a list, and the bytes after it.
#[derive(Clone, Copy, Debug, PartialEq, Eq)]
pub(crate) struct Item<'a> {
    pub kind: ItemKind,
    pub body: &'a [u8],
    pub after: &'a [u8],
    pub ghost sized: { length body.now ≡ Table-body_length kind },
}

// The first item; none where the list ends, the kind byte is unknown or the body is cut short.
pub(crate) fn first_item(list: &[u8]) -> Option<Item<'_>>
    ensures { MatchOption result (NoFirst list.now) (λ it. FirstItem list.now it.kind it.body.now it.after.now) }
{
    let (byte, rest) = list.split_first()?;
    let kind = row_of(*byte)?;
    let size = kind.body_length();
    if rest.len() < size {
        return None;
    }
    let (body, after) = rest.split_at(size);
    Some(Item { kind, body, after })
}

// How many items a list has, or the number of the first that is none.
pub(crate) fn count_items(list: &[u8]) -> Result<usize, u64>
    ensures { result ≡ item_count (parse list.now) }
{
    let mut n = 0;
    let mut rest = list;
    while let Some(item) = first_item(rest) {
        n += 1;
        rest = item.after;
    }
    if rest.len() == 0 {
        Ok(n)
    } else {
        Err(flow::as_count(n + 1))
    }
}

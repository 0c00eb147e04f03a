// What is found in a leaf, and the commands that change it.
ghost use Rattle.std.specs.Prelude.{◌≡◌, option_map};
ghost use Rattle.page_ops.specs.Reading.{found_in, seek};
ghost use Rattle.page_map.specs.Plan as plans;

use page_ops::{Page, PageOp, Text};

/// What a leaf has at a key. None where a cell that is asked does not fit.
pub fn value_in<'a>(leaf: &Page<'a>, key: &[u8]) -> Option<Option<&'a [u8]>>
    ensures { option_map (option_map (λ v. v.now)) result ≡ found_in leaf.now key.now }
{
    let place = leaf.seek(key)?;
    if !leaf.stands_at(place, key) {
        return Some(None);
    }
    let (_key, value) = leaf.cell(place)?;
    Some(Some(value))
}

// The place of a key, which two bytes can say.
fn place_in(leaf: &Page, key: &[u8]) -> Option<u16>
    ensures { result ≡ seek leaf.now key.now }
{
    let _count = leaf.count();
    let place = leaf.seek(key)?;
    Some(place as u16)
}

/// The command that gives a key of a leaf a value. It is the object that is answered where a cell that is asked does not fit.
pub fn set_in(object: u32, leaf: &Page, key: Text, value: Text) -> Result<PageOp, u32>
    ensures { result ≡ plans.set_in object leaf.now key value }
{
    let Some(place) = place_in(leaf, key.as_slice()) else {
        return Err(object);
    };
    if leaf.stands_at(place as usize, key.as_slice()) {
        return Ok(PageOp::Set {
            page: object,
            place,
            value,
        });
    }
    Ok(PageOp::Put {
        page: object,
        place,
        key,
        value,
    })
}

/// The command that takes a key out of a leaf, where it is there.
pub fn delete_in(object: u32, leaf: &Page, key: &[u8]) -> Result<Option<PageOp>, u32>
    ensures { result ≡ plans.delete_in object leaf.now key.now }
{
    let Some(place) = place_in(leaf, key) else {
        return Err(object);
    };
    if !leaf.stands_at(place as usize, key) {
        return Ok(None);
    }
    Ok(Some(PageOp::Delete {
        page: object,
        place,
    }))
}

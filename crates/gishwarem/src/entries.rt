// Document 01, "Key List Entry and list", for C: the entry, read and written; the list judged whole, and one step of its walk.
ghost use Rattle.std.specs.Prelude.{◌≡◌, length};
ghost use Rattle.records.specs.Writing.{output_of};
ghost use Rattle.keyentry.specs.Reading.{entry_of};
ghost use Rattle.keyentry.specs.Writing.{entry_bytes, entry_written};
ghost use Rattle.keylist.specs.Reading.{list_of};
ghost use Rattle.keylist.specs.Stepping.{advance_of};
ghost use Rattle.face.specs.Shapes.{written_answer};
ghost use Rattle.face_entries.specs.Entries.{entry_answer};
ghost use Rattle.face_entries.specs.Lists.{list_answer, step_answer};

use face::WrittenAnswer;
use face_entries::{EntryAnswer, ListAnswer, StepAnswer};
use keylist::Place;

// Arms that return: by one `From` of the Result, which was tried, it takes 103 instructions, and by this 86, where the reference over the same
// face takes 95.
#[unsafe(no_mangle)]
pub extern "C" fn gw_entry_read(s: &[u8]) -> EntryAnswer
    ensures { result ≡ entry_answer (entry_of s.now) }
{
    match keyentry::read(s) {
        Ok(entry) => {
            return EntryAnswer::from(entry);
        }
        Err(refusal) => {
            return EntryAnswer::from(refusal);
        }
    }
}

#[unsafe(no_mangle)]
pub extern "C" fn gw_entry_write(
    out: &mut [u8],
    flags: u32,
    item: &[u8],
    fek: &[u8],
) -> WrittenAnswer
    ensures answer { result ≡ written_answer (entry_written flags item.now fek.now (length out.old)) }
    ensures output { out.new ≡ output_of (entry_written flags item.now fek.now (length out.old)) (entry_bytes flags item.now fek.now) out.old }
{
    WrittenAnswer::from(keyentry::write(out, flags, item, fek))
}

#[unsafe(no_mangle)]
pub extern "C" fn gw_list_judge(list: &[u8]) -> ListAnswer
    ensures { result ≡ list_answer (list_of list.now) }
{
    ListAnswer::from(keylist::judge(list))
}

// The walk starts at offset 4 and index 0, and goes on at the next place that a step answers. At the end and on a refusal that is
// the place asked at: asked again there, it answers that again.
#[unsafe(no_mangle)]
pub extern "C" fn gw_list_step(list: &[u8], at: usize, index: u32) -> StepAnswer
    ensures { result ≡ step_answer (advance_of list.now (record { at = at; index = index })) }
{
    StepAnswer::from(keylist::next_step(list, Place { at, index }))
}

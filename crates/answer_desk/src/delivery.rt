//! The only place that writes. It takes no memory.
ghost use Rattle.std.specs.Prelude.{◌≡◌, OnOk, OnErr};
ghost use Rattle.desk_io.specs.declared.desk.Kind.{Kind};
ghost use Rattle.desk_io.specs.Known.{file_items};
ghost use Rattle.answer_desk.specs.Deliver.{Delivered, CutShort, SameWriteFaults};

use command_answers::answer::Answer;
use desk_io::{Desk, WriteFault, write_file, write_output};

/// Writes the table to the file, if there is one, and then the text to the output. Where the table is not written whole, nothing is
/// printed; where the text is not printed whole, a prefix of it is.
pub fn deliver<D: Desk>(desk: &mut D, answer: &Answer) -> Result<(), WriteFault>
    ensures ok { OnOk result (Delivered D.file D.output desk.old desk.new
        answer.now.text.items (file_items answer.now.table)) }
    ensures fault { OnErr result (CutShort D.file D.output D.faults desk.old desk.new
        answer.now.text.items (file_items answer.now.table)) }
    ensures no_fault { OnOk result (SameWriteFaults (D.faults desk.old) (D.faults desk.new)) }
    ensures same_name { D.name desk.new ≡ D.name desk.old }
    ensures same_input { D.input desk.new ≡ D.input desk.old }
    ensures same_taken { (D.faults desk.new Kind.TakeInput ≡ D.faults desk.old Kind.TakeInput)
        × (D.faults desk.new Kind.TakeFile ≡ D.faults desk.old Kind.TakeFile) }
{
    if let Some(table) = &answer.table {
        write_file(desk, table)?;
    }
    write_output(desk, &answer.text)
}

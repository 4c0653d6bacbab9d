// The salvage of a torn record.
ghost use Rattle.std.specs.Prelude.{◌≡◌};
ghost use Rattle.salvage.specs.Salvage.{salvage_of, salvage_number};
ghost use Rattle.cells.specs.Cells.{stored};
ghost use Rattle.exports.specs.Answers.{salvage_cells};

// Copies every entry of a record that can be kept, and lists the spans left out. answer: entries kept, bytes copied, spans listed.
#[unsafe(no_mangle)]
pub extern "C" fn arf_salvage(
    record: &[u8],
    copy: &mut [u8],
    spans: &mut [u32],
    answer: &mut [u64],
) -> u32
    ensures value { result ≡ salvage_number (salvage_of «record».now copy.old spans.old).answer }
    ensures copy_after { copy.new ≡ (salvage_of «record».now copy.old spans.old).copy }
    ensures spans_after { spans.new ≡ (salvage_of «record».now copy.old spans.old).spans }
    ensures answer_after { answer.new ≡ stored answer.old (salvage_cells (salvage_of «record».now copy.old spans.old).answer) }
{
    exports::salvages::arf_salvage(record, copy, spans, answer)
}

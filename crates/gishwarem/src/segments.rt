// Document 02, No. 1, for C: a data segment's header, read and written, and the size of one of its blocks.
ghost use Rattle.std.specs.Prelude.{◌≡◌, length};
ghost use Rattle.records.specs.Writing.{output_of};
ghost use Rattle.segment.specs.Reading.{segment_of, size_of};
ghost use Rattle.segment.specs.Writing.{segment_bytes, segment_written};
ghost use Rattle.face.specs.Shapes.{written_answer};
ghost use Rattle.face_segments.specs.Segments.{segment_answer, size_answer, head_from};

use face::WrittenAnswer;
use face_segments::{SegmentAnswer, SizeAnswer};
use segment::{Head, Shifts};

#[unsafe(no_mangle)]
pub extern "C" fn gw_segment_read(s: &[u8]) -> SegmentAnswer
    ensures { result ≡ segment_answer (segment_of s.now) }
{
    // The refusal returns: by one `From` of the Result, which was tried, it takes 16 to 20 instructions more, and so more than the reference over
    // the same face, 136 of 16 blocks.
    match segment::read(s) {
        Ok(segment) => SegmentAnswer::from(segment),
        Err(refusal) => return SegmentAnswer::from(refusal),
    }
}

#[unsafe(no_mangle)]
pub extern "C" fn gw_segment_size(s: &[u8], index: usize) -> SizeAnswer
    ensures { result ≡ size_answer (size_of s.now index) }
{
    SizeAnswer::from(segment::size(s, index))
}

#[unsafe(no_mangle)]
pub extern "C" fn gw_segment_write(
    out: &mut [u8],
    start_offset: u64,
    bytes_in_stream: u32,
    bytes_in_vdl: u32,
    unit_shift: u32,
    chunk_shift: u32,
    cluster_shift: u32,
    sizes: &[u32],
) -> WrittenAnswer
    ensures answer { result ≡ written_answer (segment_written (head_from start_offset bytes_in_stream bytes_in_vdl unit_shift chunk_shift cluster_shift) sizes.now (length out.old)) }
    ensures output { out.new ≡ output_of (segment_written (head_from start_offset bytes_in_stream bytes_in_vdl unit_shift chunk_shift cluster_shift) sizes.now (length out.old)) (segment_bytes (head_from start_offset bytes_in_stream bytes_in_vdl unit_shift chunk_shift cluster_shift) sizes.now) out.old }
{
    WrittenAnswer::from(segment::write(
        out,
        Head {
            start_offset,
            bytes_in_stream,
            bytes_in_vdl,
            shifts: Shifts {
                unit: unit_shift,
                chunk: chunk_shift,
                cluster: cluster_shift,
            },
        },
        sizes,
    ))
}

// Document 02, No. 1, as C has its answers: a data segment's header, and the size of one of its blocks.
#![tactic(auto)]

ghost use Rattle.std.specs.Prelude.{◌≡◌, Ok, Err};
ghost use Rattle.face_segments.specs.Segments.{segment_answer, size_answer};

use face::Part;
use refusal::Refusal;
use segment::Segment;

// A data segment's header: its numbers, how many blocks it has, how many of them are larger than the data unit, and where their sizes
// stand.
#[repr(C)]
#[derive(Clone, Copy, Debug, PartialEq, Eq)]
pub struct SegmentAnswer {
    pub refusal: u32,
    pub length: u32,
    pub start_offset: u64,
    pub bytes_in_stream: u32,
    pub bytes_in_vdl: u32,
    pub unit_shift: u32,
    pub chunk_shift: u32,
    pub cluster_shift: u32,
    pub blocks: u32,
    pub larger: u32,
    pub reserved: u32,
    pub sizes: Part,
}

// The size of a block: found is 1 for a block, 0 for none at that index, as C has no option.
#[repr(C)]
#[derive(Clone, Copy, Debug, PartialEq, Eq)]
pub struct SizeAnswer {
    pub refusal: u32,
    pub found: u32,
    pub size: u32,
}

// Accepted: what the header shows.
impl From<Segment> for SegmentAnswer {
    ghost from_gives = { λ segment answer. answer ≡ segment_answer (Ok segment) };

    #[tactic(auto, unfolding(crate::specs::Segments::segment_answer, segment::specs::Reading::segment_number, segment::specs::Reading::segment_values))]
    fn from(segment: Segment) -> SegmentAnswer {
        let head = segment.head;
        let shifts = head.shifts;
        SegmentAnswer {
            refusal: 0,
            length: segment.length,
            start_offset: head.start_offset,
            bytes_in_stream: head.bytes_in_stream,
            bytes_in_vdl: head.bytes_in_vdl,
            unit_shift: shifts.unit,
            chunk_shift: shifts.chunk,
            cluster_shift: shifts.cluster,
            blocks: segment.blocks,
            larger: segment.larger,
            reserved: 0,
            sizes: Part::from(segment.sizes),
        }
    }
}

// Refused: the number, and zeros.
impl From<Refusal> for SegmentAnswer {
    ghost from_gives = { λ refusal answer. answer ≡ segment_answer (Err refusal) };

    #[tactic(auto, unfolding(crate::specs::Segments::segment_answer, segment::specs::Reading::segment_number, segment::specs::Reading::segment_values))]
    fn from(refusal: Refusal) -> SegmentAnswer {
        SegmentAnswer {
            refusal: refusal.number(),
            length: 0,
            start_offset: 0,
            bytes_in_stream: 0,
            bytes_in_vdl: 0,
            unit_shift: 0,
            chunk_shift: 0,
            cluster_shift: 0,
            blocks: 0,
            larger: 0,
            reserved: 0,
            sizes: Part { at: 0, len: 0 },
        }
    }
}

impl From<Result<Option<u32>, Refusal>> for SizeAnswer {
    ghost from_gives = { λ read answer. answer ≡ size_answer read };

    #[tactic(auto, unfolding(crate::specs::Segments::size_answer, segment::specs::Reading::size_number, segment::specs::Reading::size_found, segment::specs::Reading::size_value))]
    fn from(read: Result<Option<u32>, Refusal>) -> SizeAnswer {
        match read {
            Ok(Some(size)) => SizeAnswer {
                refusal: 0,
                found: 1,
                size,
            },
            Ok(None) => SizeAnswer {
                refusal: 0,
                found: 0,
                size: 0,
            },
            Err(refusal) => SizeAnswer {
                refusal: refusal.number(),
                found: 0,
                size: 0,
            },
        }
    }
}

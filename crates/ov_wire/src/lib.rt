//! What comes from outside as bytes: manifests, and frames.
#![tactic(auto)]

mod manifest;

pub use manifest::{Blob, EntryFault, ManifestFault, blobs_of, layers_of, manifest_of, table_of};
pub use ov_frames::{
    Answer, Decoder, End, FRAME_MAX, FrameFault, LentAnswer, Request, TextCall, append_reply,
    encode_reply,
};

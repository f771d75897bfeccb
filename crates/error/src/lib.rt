// The refusals (document 01, "When it says no", and document 02), after error.rs: one case for each number.
#![tactic(auto)]

ghost use Rattle.std.specs.Prelude.{◌≡◌};
ghost use Rattle.error.specs.Refusals.{number_of};

#[derive(Clone, Copy, Debug, PartialEq, Eq)]
pub enum NonSeqError {
    // 1: the threshold is below 0 or not finite
    InvalidThreshold,
    // 2: the bounce limit is over 16
    BounceLimitTooLarge,
    // 3: a list is over its limit
    ListTooLong,
    // 4: the asked detector is not there
    NoSuchDetector,
    // 5: a width or height is at most 0 or not finite
    InvalidDetectorSize,
    // 6: a resolution is 0
    ZeroResolution,
    // 7: a resolution is over 4,096
    ResolutionTooLarge,
    // 8: a detector's unit normal and unit up are nearly parallel
    ParallelUp,
    // 9: a slice has another length than it needs
    InvalidSliceLength,
    // 10: a given ray has a part that is not finite, a power below 0 or no unit direction
    InvalidRay,
    // 11: a given ray has over 8 media, or one that is not a solid
    InvalidMedia,
    // 12: the hit list is full
    HitListFull,
    // 13: a hit count is at its largest
    HitCountFull,
    // 14: the wavelength is at most 0 (in `refractive_index` alone, also not finite)
    InvalidWavelength,
    // 15: an index is outside its rule
    InvalidIndex,
    // 16: a built ray has a part that is not finite
    RayNotFinite,
    // 17: the scene is not as its format says
    InvalidSceneText,
    // 18: a detector's centre, normal or up has a part that is not finite, or its normal or up a length that is at
    // most 1e-15 or not finite
    InvalidDetectorPose,
}

impl NonSeqError {
    // The documents' number. No `From<NonSeqError> for u32`: that would not say which number it is.
    pub fn number(self) -> u32
        ensures { result ≡ number_of self }
    {
        match self {
            NonSeqError::InvalidThreshold => 1,
            NonSeqError::BounceLimitTooLarge => 2,
            NonSeqError::ListTooLong => 3,
            NonSeqError::NoSuchDetector => 4,
            NonSeqError::InvalidDetectorSize => 5,
            NonSeqError::ZeroResolution => 6,
            NonSeqError::ResolutionTooLarge => 7,
            NonSeqError::ParallelUp => 8,
            NonSeqError::InvalidSliceLength => 9,
            NonSeqError::InvalidRay => 10,
            NonSeqError::InvalidMedia => 11,
            NonSeqError::HitListFull => 12,
            NonSeqError::HitCountFull => 13,
            NonSeqError::InvalidWavelength => 14,
            NonSeqError::InvalidIndex => 15,
            NonSeqError::RayNotFinite => 16,
            NonSeqError::InvalidSceneText => 17,
            NonSeqError::InvalidDetectorPose => 18,
        }
    }
}

// A refusal, and the place in a list of what is refused, from 0.
#[derive(Clone, Copy, Debug, PartialEq, Eq)]
pub struct Refusal {
    pub error: NonSeqError,
    pub place: u32,
}

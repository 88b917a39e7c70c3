// The limits on requests, protocol errors, and the laws of the request grammar (RESP2).
ghost use Rattle.std.specs.Prelude.{◌≡◌, ℕ, ◌+◌, List, ◌++◌, length, All};
ghost use Rattle.ts_spec.specs.Wire.{Request, Ended, stream_at, requests_of, ending_of};
ghost use Rattle.ts_spec.specs.Encoded.{encoded, Fits};
ghost use Rattle.ts_spec.specs.StreamPrefixes.{IsStreamPrefix, IsWithin, continued_by};

/// A protocol error.
#[derive(Clone, Copy, Debug, PartialEq, Eq)]
pub enum Kind {
    /// The word count of a request is invalid or above the limit.
    Multibulk,
    /// The length of a word is invalid or above the limit.
    Bulk,
    /// A word does not begin with `$`.
    Dollar,
    /// A line or a word does not end with CRLF.
    Crlf,
    /// The words of a request, or an inline command, exceed the limit on bytes.
    TooLarge,
}

/// The limits on one request.
#[derive(Clone, Copy, Debug, PartialEq, Eq)]
pub struct WireLimits {
    /// The number of words of an array.
    pub words: u32,
    /// The length of each word of an array, in bytes.
    pub word_bytes: u32,
    /// The length of all words of an array together, in bytes.
    pub request_bytes: u32,
    /// The length of an inline command without its LF, in bytes. The other limits do not apply to it.
    pub line_bytes: u32,
}

/// Encoding requests and parsing the bytes gives the same requests, if each has words and is within the limits.
pub fn encoded_requests_read_back(limits: WireLimits)
    ensures requests { (requests : List Request) → All (Fits limits) requests
        → requests_of (stream_at limits 0 (encoded requests)) ≡ requests }
    ensures ending { (requests : List Request) → All (Fits limits) requests
        → ending_of (stream_at limits 0 (encoded requests)) ≡ Ended }
{}

/// Every request of a stream is within the limits: an array in its word count and bytes, an inline command in its
/// length.
pub fn requests_of_a_stream_are_within_its_limits(limits: WireLimits)
    ensures { (place : ℕ) (bytes : List ℕ) → All (IsWithin limits) (requests_of (stream_at limits place bytes)) }
{}

/// The requests of a prefix of a stream are its first requests. A broken stream stays broken, whatever bytes follow.
pub fn a_stream_prefix_stays(limits: WireLimits)
    ensures { (place : ℕ) (bytes more : List ℕ)
        → IsStreamPrefix (stream_at limits place bytes) (stream_at limits place (bytes ++ more)) }
{}

/// If a stream ends between two requests, the bytes after it parse as a stream of their own.
pub fn streams_concatenate_after_whole_requests(limits: WireLimits)
    ensures { (place : ℕ) (bytes more : List ℕ) → ending_of (stream_at limits place bytes) ≡ Ended
        → stream_at limits place (bytes ++ more)
        ≡ continued_by (stream_at limits place bytes) (stream_at limits (place + length bytes) more) }
{}

ghost use Rattle.std.specs.Prelude.{◌≡◌, ◌+◌, length, min, sum};
ghost use Rattle.otlp_model.specs.Limits.{count_cap};

/// How many main items (spans, log records or metrics) a request may have.
pub const MAX_ITEMS: u64 = 1_048_576;

/// How much a request may weigh.
pub const MAX_TREE_WEIGHT: u64 = 1 << 26;

/// How deep a value may be.
pub const MAX_DEPTH: u64 = 32;

/// What a count returns where its number is larger.
pub const CAP: u64 = 1 << 63;

/// The sum, or `CAP` where it is larger.
pub fn add_capped(a: u64, b: u64) -> u64
    ensures { result ≡ min (a + b) count_cap }
{
    a.saturating_add(b).min(CAP)
}

/// The length, or `CAP` where it is larger.
pub fn capped_len(part: &[u8]) -> u64
    ensures { result ≡ min (length part.now) count_cap }
{
    (part.len() as u64).min(CAP)
}

/// The sum of all, or `CAP` where it is larger.
pub fn sum_capped(weights: &[u64]) -> u64
    ensures { result ≡ min (sum weights.now) count_cap }
{
    let mut total = 0;
    for weight in weights {
        total = add_capped(total, *weight);
    }
    total
}

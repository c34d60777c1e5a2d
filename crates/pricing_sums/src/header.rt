// The numbers of a snapshot's header, and their ranges.
ghost use Rattle.std.specs.Prelude.{◌≡◌};
ghost use Rattle.pricing_sums.specs.Header.{header_values, header_fault};

use integer::range::is_within;

// The numbers of a snapshot's header, in the order of its lines.
#[derive(Clone, Copy)]
pub struct Header {
    pub month: i64,
    pub hour: i64,
    // System Lambda, in cents per MWh.
    pub lambda: i64,
    // The discount factor, in ten-thousandths.
    pub factor: i64,
    // Physical Responsive Capability, and the PRC at which EEA Level 1 starts, in kW.
    pub prc: i64,
    pub eea1: i64,
    // The under-generation of SCED, in kW.
    pub short: i64,
    pub count: i64,
}

// The least and the greatest number of each of the header's lines: two arrays, since `text_schema::read_lines` takes them as two slices.
pub const HEADER_LOWS: [i64; 8] = [1, 0, -2000000, 0, 0, 0, 0, 0];

pub const HEADER_HIGHS: [i64; 8] = [
    12, 23, 2000000, 10000, 200000000, 200000000, 200000000, 4096,
];

// A header's numbers in the order of its lines. A function and no `From`, since contracts name the definition `header_values`.
fn header_values(h: Header) -> [i64; 8]
    ensures { result ≡ header_values h }
{
    [
        h.month, h.hour, h.lambda, h.factor, h.prc, h.eea1, h.short, h.count,
    ]
}

// The line of the first header number out of its range, or 0, on which `header_fault_lem`, `header_bound` and `header_refused` are stated.
pub fn header_fault(header: Header) -> usize
    ensures { result ≡ header_fault header }
{
    let lows = HEADER_LOWS;
    let highs = HEADER_HIGHS;
    let values = header_values(header);
    for place in 0..8 {
        if !is_within(values[place], lows[place], highs[place]) {
            return place + 1;
        }
    }
    0
}

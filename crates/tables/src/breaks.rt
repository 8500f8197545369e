// Where a piece of the text ends. The reader looks for breaks through `next_break` alone.
ghost use Rattle.std.specs.Prelude.{◌≡◌};
ghost use Rattle.tables.specs.Breaks.{is_break, next_break, First};

const BLANK: u8 = b' ';

const LINE_END: u8 = b'\n';

// The place of the first blank or line end at or after `from`, or the input's length where there is none or where `from`
// lies past the end.
pub fn next_break(input: &[u8], from: usize) -> usize
    ensures place { result ≡ next_break input.now from }
    ensures first { First is_break input.now from result }
{
    let Some(rest) = input.get(from..) else {
        return input.len();
    };
    match rest.iter().position(|b| *b == BLANK || *b == LINE_END) {
        Some(n) => from + n,
        None => input.len(),
    }
}

// Tests that call, as another crate would, what no program here calls.
#![tactic(auto)]

ghost use Rattle.std.specs.Prelude.{◌≤◌};

#[cfg(test)]
mod tests {
    use parameters::{Parameters, Part, Source};
    use rules::Refusal;
    use text::put;

    // Writes the parameters `c=x` and `a=b` of a text of N bytes, entered in this order, into out.
    fn two_lines<const N: usize>(out: &mut [u8]) -> Result<usize, Refusal>
        requires { (16 ≤ N) × (N ≤ 40970) }
    {
        let mut s = [b' '; N];
        let _ = put(b"c=x a=b", &mut s, 0);
        let m = put(b"_nametrue", &mut s, N - 9);
        let mut table = Parameters::new(Source {
            s: &s[..m],
            n: N - 9,
        });
        let _ = table.enter(Part {
            key: 0,
            key_end: 1,
            value: 2,
            value_end: 3,
        });
        let _ = table.enter(Part {
            key: 4,
            key_end: 5,
            value: 6,
            value_end: 7,
        });
        table.lines_out(out)
    }

    // A text of 40,969 bytes is the longest whose lines are summed.
    #[test]
    fn lines_out_writes_the_lines(rt: HostRuntime) {
        let mut out = [0; 9];
        assert!(rt; matches!(two_lines::<16>(&mut out), Ok(8)));
        assert_eq!(rt; out, *b"a=b\nc=x\n\0");
        let mut out = [0; 9];
        assert!(rt; matches!(two_lines::<40969>(&mut out), Ok(8)));
        assert_eq!(rt; out, *b"a=b\nc=x\n\0");
        let mut out = [0; 8];
        assert!(rt; matches!(two_lines::<40970>(&mut out), Ok(8)));
        assert_eq!(rt; out, *b"a=b\nc=x\n");
    }

    #[test]
    fn lines_out_refuses_7(rt: HostRuntime) {
        let mut out = [1; 7];
        assert!(rt; matches!(two_lines::<16>(&mut out), Err(Refusal { number: 7, .. })));
        assert!(rt; matches!(two_lines::<40969>(&mut out), Err(Refusal { number: 7, .. })));
        assert!(rt; matches!(two_lines::<40970>(&mut out), Err(Refusal { number: 7, .. })));
        assert_eq!(rt; out, [1; 7]);
    }
}

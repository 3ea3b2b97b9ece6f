// What the record program prints for texts that are refused, one for each number from 1 to 8 and 11, at the first line or a later one.
#![tactic(auto)]

const TEXTS: [&[u8]; 11] = [
    b"H",
    b"H\tNM:Z:a\n\tx\n",
    b"H\tVN:Z:1.1\tNM",
    b"H\tSG:Z:a,b,c",
    b"@RN\ta\n@SG\ta\tb\nH\tab:i:1\tTL:Z:,b\n@TL\tx\n",
    b"@RN\t",
    b"@SG\ta",
    b"@CO\tany\n@TL\ta\t\tb\n",
    b"@RN\t0123456789abcdef0123456789abcdef0123456789abcdef0123456789abcdef0123456789abcdef0123456789abcdef0123456789abcdef0123456789abcdef0123456789abcdef0123456789abcdef0123456789abcdef0123456789abcdef0123456789abcdef0123456789abcdef0123456789abcdef0123456789abcdef0",
    b"",
    b"H\tNM:Z:\n",
];

fn main() {
    for text in TEXTS {
        test_report::run(text);
    }
}

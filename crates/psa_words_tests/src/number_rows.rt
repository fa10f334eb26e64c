//! Decimals and intervals, and what the calls of psa_number give.

/// Rows: the text of a decimal behind `read`, and its digits and exponent, or its fault.
pub const DECIMALS: &str = "\
read 0 => 0e0
read 8760 => 8760e0
read +.5e-1 => 5e-2
read -1.50E+2 => -150e0
read 5. => 5e0
read -0 => -0e0
read 1e-20 => 1e-20
read 1e-99 => 1e-99
read 0e99 => 0e99
read 1e0006 => 1e6
read 1000000 => 1000000e0
read 0.00001e11 => 1e6
read .123456789012345678901234567890123456e-99 => 123456789012345678901234567890123456e-135
read  => not a decimal
read . => not a decimal
read + => not a decimal
read -e1 => not a decimal
read 1e => not a decimal
read 1e+ => not a decimal
read 1.2.3 => not a decimal
read 1e2. => not a decimal
read 1e10000 => not a decimal
read --1 => not a decimal
read  1 => not a decimal
read 1  => not a decimal
read 1e5e5 => not a decimal
read 0x10 => not a decimal
read .1234567890123456789012345678901234567 => too many digits
read 0000000000000000000000000000000000000 => too many digits
read 1e100 => too many digits
read 0e-100 => too many digits
read 1e9999 => too many digits
read 1e99 => too large
read 1e7 => too large
read -1000000.000000000001 => too large
";

/// Rows: an operation on two decimals or intervals, and the ends of its result in units of 10^-12, or its fault.
/// `LO..HI` is the interval between two decimals.
pub const INTERVALS: &str = "\
1e-20 + 0 => 0 1
-1e-20 + 0.25 => 249999999999 250000000000
999999 + 1 => 1000000000000000000 1000000000000000000
1e6 + 1e-12 => too large
-1e6 + -1e-99 => too large
0.5 - 1e-20 => 499999999999 500000000000
-1e6 - 1e-12 => too large
-0.5 * 3 => -1500000000000 -1500000000000
1e-12 * 0.5 => 0 1
-1e-12 * 0.5 => -1 0
1000 * 1000 => 1000000000000000000 1000000000000000000
1000 * 1000.000000001 => too large
1 / 3 => 333333333333 333333333334
1 / -3 => -333333333334 -333333333333
-1 / -3 => 333333333333 333333333334
1 / 0 => zero divisor
1 / 1e-20 => zero divisor
1 / -1e-20 => zero divisor
1 / 1e-6 => 1000000000000000000 1000000000000000000
2 / 1e-6 => too large
0 exponential 8760 => 0 0
1e-6 exponential 0 => 0 0
1e-6 exponential 8760 => 8721742990 8721742995
1 exponential 8760 => 999999999999 1000000000000
-1e-20 exponential 8760 => 0 0
-1 exponential 8760 => negative
1 exponential -8760 => negative
0.333333333333..0.333333333334 * 3 => 999999999999 1000000000002
0.333333333333..0.333333333334 neg => -333333333334 -333333333333
";

/// Rows, as above: the operations within 0 and 1.
pub const IN_UNIT: &str = "\
-5e-12..1.000000000002 clamp => 0 1000000000000
0.333333333333..0.333333333334 clamp => 333333333333 333333333334
0.333333333333..0.333333333334 times 0.333333333333..0.333333333334 => 111111111110 111111111112
0.333333333333..0.333333333334 plus 0.333333333333..0.333333333334 => 666666666666 666666666668
0.333333333333..0.333333333334 plus 0.999999999999..1 => 1000000000000 1000000000000
0.333333333333..0.333333333334 complement => 666666666666 666666666667
";

/// Rows: units of 10^-12 behind `print`, and how they are printed.
pub const PRINTED: &str = "\
print 0 => 0.000000000000
print -1 => -0.000000000001
print 8721742990 => 0.008721742990
print -12345000000000010 => -12345.000000000010
print 1000000000000000000 => 1000000.000000000000
print -1000000000000000000 => -1000000.000000000000
";

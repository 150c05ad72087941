//! The kernels of the folder `kernels/` without arrays.
use super::{Cost, Known, Run};

const BUTTERFLY: &str =
    "// The two-point step of a transform, with the twiddle factor w: a + w*b and a - w*b.
// Shows two outputs that share a temporary.
kernel butterfly {
  in a;
  in b;
  in w;
  out p;
  out q;
  tmp t;
  t = w * b;
  p = a + t;
  q = a - t;
}
";

const COMPLEX_PRODUCT: &str = "// The product (a + bi)(c + di), as its real and its imaginary part.
// Shows inputs that are read twice each.
kernel complex_product {
  in a;
  in b;
  in c;
  in d;
  out re;
  out im;
  tmp ac;
  tmp bd;
  tmp ad;
  tmp bc;
  ac = a * c;
  bd = b * d;
  re = ac - bd;
  ad = a * d;
  bc = b * c;
  im = ad + bc;
}
";

const FILTER: &str = "// A filter of three taps at one point: x0*h0 + x1*h1 + x2*h2.
// Shows a temporary and an output that are assigned again and again.
kernel filter {
  in x0;
  in x1;
  in x2;
  in h0;
  in h1;
  in h2;
  out y;
  tmp t;
  y = x0 * h0;
  t = x1 * h1;
  y = y + t;
  t = x2 * h2;
  y = y + t;
}
";

const HORNER: &str = "// c4*x^4 + c3*x^3 + c2*x^2 + c1*x + c0, by Horner's rule.
// Shows a chain of operations in which one input is read four times.
kernel horner {
  in x;
  in c4;
  in c3;
  in c2;
  in c1;
  in c0;
  out y;
  y = c4 * x;
  y = y + c3;
  y = y * x;
  y = y + c2;
  y = y * x;
  y = y + c1;
  y = y * x;
  y = y + c0;
}
";

const LUMA: &str = "// The brightness of a colour, times 256: 77*r + 150*g + 29*b.
// Shows constants as operands, which are no vertices of the graph.
kernel luma {
  in r;
  in g;
  in b;
  out y;
  tmp red;
  tmp green;
  tmp blue;
  tmp part;
  red = r * 77;
  green = g * 150;
  part = red + green;
  blue = b * 29;
  y = part + blue;
}
";

const MASKED_SELECT: &str =
    "// A bit of a where the bit of m is 0, and one of b where it is 1: a ^ ((a ^ b) & m).
// Shows operations on bits, and an input that is needed early and late.
kernel masked_select {
  in a;
  in b;
  in m;
  out y;
  tmp t;
  t = a ^ b;
  t = t & m;
  y = a ^ t;
}
";

const NEWTON: &str = "// A step towards 1/d modulo 2^64: x*(2 - d*x).
// Shows a constant on the left of a minus sign.
kernel newton {
  in x;
  in d;
  out y;
  tmp t;
  tmp u;
  t = d * x;
  u = 2 - t;
  y = x * u;
}
";

const VECTOR_SUM: &str = "// The sum of two vectors of two words.
// Shows a kernel in which nothing is read twice, so that three slots are enough for the least traffic.
kernel vector_sum {
  in a0;
  in a1;
  in b0;
  in b1;
  out s0;
  out s1;
  s0 = a0 + b0;
  s1 = a1 + b1;
}
";

pub const SCALARS: [Known; 8] = [
    Known {
        text: BUTTERFLY,
        vertices: 6,
        inputs: 3,
        degree: 2,
        bound: 5,
        costs: [Cost(3, 5), Cost(4, 5), Cost(8, 5)],
        runs: [
            Run("10 3 2", "p = 16\nq = 4\n"),
            Run(
                "9223372036854775807 9223372036854775806 3",
                "p = -7\nq = 5\n",
            ),
        ],
    },
    Known {
        text: COMPLEX_PRODUCT,
        vertices: 10,
        inputs: 4,
        degree: 2,
        bound: 6,
        costs: [Cost(3, 14), Cost(4, 9), Cost(8, 6)],
        runs: [
            Run("3 2 1 4", "re = -5\nim = 14\n"),
            Run(
                "9223372036854775807 1 2 -9223372036854775808",
                "re = 9223372036854775806\nim = -9223372036854775806\n",
            ),
        ],
    },
    Known {
        text: FILTER,
        vertices: 11,
        inputs: 6,
        degree: 2,
        bound: 7,
        costs: [Cost(3, 11), Cost(4, 7), Cost(8, 7)],
        runs: [
            Run("1 2 3 1 -2 1", "y = 0\n"),
            Run(
                "9223372036854775807 -9223372036854775808 9223372036854775806 2 3 -4",
                "y = -9223372036854775802\n",
            ),
        ],
    },
    Known {
        text: HORNER,
        vertices: 14,
        inputs: 6,
        degree: 2,
        bound: 7,
        costs: [Cost(3, 10), Cost(4, 7), Cost(8, 7)],
        runs: [
            Run("2 1 2 3 4 5", "y = 57\n"),
            Run(
                "3 9223372036854775807 -9223372036854775808 9223372036854775807 -9223372036854775808 9223372036854775797",
                "y = 9223372036854775707\n",
            ),
        ],
    },
    Known {
        text: LUMA,
        vertices: 8,
        inputs: 3,
        degree: 2,
        bound: 4,
        costs: [Cost(3, 4), Cost(4, 4), Cost(8, 4)],
        runs: [
            Run("200 100 50", "y = 31850\n"),
            Run(
                "9223372036854775807 9223372036854775806 -9223372036854775808",
                "y = -377\n",
            ),
        ],
    },
    Known {
        text: MASKED_SELECT,
        vertices: 6,
        inputs: 3,
        degree: 2,
        bound: 4,
        costs: [Cost(3, 5), Cost(4, 4), Cost(8, 4)],
        runs: [
            Run("12 10 6", "y = 10\n"),
            Run(
                "9223372036854775807 -9223372036854775808 -4611686018427387904",
                "y = -4611686018427387905\n",
            ),
        ],
    },
    Known {
        text: NEWTON,
        vertices: 5,
        inputs: 2,
        degree: 2,
        bound: 3,
        costs: [Cost(3, 3), Cost(4, 3), Cost(8, 3)],
        runs: [
            Run("3 3", "y = -21\n"),
            Run(
                "9223372036854775803 -9223372036854775806",
                "y = 9223372036854775748\n",
            ),
        ],
    },
    Known {
        text: VECTOR_SUM,
        vertices: 6,
        inputs: 4,
        degree: 2,
        bound: 6,
        costs: [Cost(3, 6), Cost(4, 6), Cost(8, 6)],
        runs: [
            Run("1 2 30 40", "s0 = 31\ns1 = 42\n"),
            Run(
                "9223372036854775807 -9223372036854775808 1 -1",
                "s0 = -9223372036854775808\ns1 = 9223372036854775807\n",
            ),
        ],
    },
];

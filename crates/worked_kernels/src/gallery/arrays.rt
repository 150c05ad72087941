//! The kernels of the folder `kernels/` with arrays and loops.
use super::{Cost, Known, Run};

const ALIGNMENT: &str =
    "// The edit distance of two words of four letters, by dynamic programming over a table of five rows.
// Shows a wavefront: each cell is read three times. Of n letters, with slots for a row of cells and a word traffic grows as n, and else as n*n.
kernel alignment {
  in a[4];
  in b[4];
  out y;
  tmp d[5][5];
  for i in 0..5 {
    d[i][0] = i;
    d[0][i] = i;
  }
  for i in 0..4 {
    for j in 0..4 {
      d[i + 1][j + 1] = min(min(d[i][j + 1], d[i + 1][j]) + 1, d[i][j] + sel(a[i] ^ b[j], 1, 0));
    }
  }
  y = d[4][4];
}
";

const BITONIC_SORT: &str =
    "// A bitonic network that sorts eight words: six rounds of four exchanges, each by min and max.
// Shows a network of log(n)*(log(n) + 1)/2 rounds; without room for all words, each round moves most of them.
kernel bitonic_sort {
  in x[8];
  out w[8];
  tmp t;
  for i in 0..8 {
    w[i] = x[i];
  }
  for b in 0..4 {
    t = min(w[2*b], w[2*b + 1]);
    w[2*b + 1] = max(w[2*b], w[2*b + 1]);
    w[2*b] = t;
  }
  for b in 0..2 {
    for i in 0..2 {
      t = min(w[4*b + i], w[4*b + 3 - i]);
      w[4*b + 3 - i] = max(w[4*b + i], w[4*b + 3 - i]);
      w[4*b + i] = t;
    }
  }
  for b in 0..4 {
    t = min(w[2*b], w[2*b + 1]);
    w[2*b + 1] = max(w[2*b], w[2*b + 1]);
    w[2*b] = t;
  }
  for i in 0..4 {
    t = min(w[i], w[7 - i]);
    w[7 - i] = max(w[i], w[7 - i]);
    w[i] = t;
  }
  for b in 0..2 {
    for i in 0..2 {
      t = min(w[4*b + i], w[4*b + i + 2]);
      w[4*b + i + 2] = max(w[4*b + i], w[4*b + i + 2]);
      w[4*b + i] = t;
    }
  }
  for b in 0..4 {
    t = min(w[2*b], w[2*b + 1]);
    w[2*b + 1] = max(w[2*b], w[2*b + 1]);
    w[2*b] = t;
  }
}
";

const BUTTERFLY_8: &str =
    "// The butterfly network of eight points, with sums and differences (the transform of Walsh and Hadamard).
// Shows the graph of a fast transform. Of n points it needs about n*log(n) / log(S) transfers with S slots.
kernel butterfly_8 {
  in x[8];
  out w[8];
  tmp t;
  for i in 0..8 {
    w[i] = x[i];
  }
  for b in 0..4 {
    t = w[2*b];
    w[2*b] = t + w[2*b + 1];
    w[2*b + 1] = t - w[2*b + 1];
  }
  for b in 0..2 {
    for i in 0..2 {
      t = w[4*b + i];
      w[4*b + i] = t + w[4*b + i + 2];
      w[4*b + i + 2] = t - w[4*b + i + 2];
    }
  }
  for i in 0..4 {
    t = w[i];
    w[i] = t + w[i + 4];
    w[i + 4] = t - w[i + 4];
  }
}
";

const CLAMP: &str = "// Four words, each brought into the range from low to high.
// Shows calls in one another, and two inputs that every turn of a loop reads.
kernel clamp {
  in x[4];
  in low;
  in high;
  out y[4];
  for i in 0..4 {
    y[i] = min(max(x[i], low), high);
  }
}
";

const DOT_PRODUCT: &str = "// The dot product of two vectors of four words.
// Shows a loop whose number of turns is known, and an output that gathers a sum.
kernel dot_product {
  in a[4];
  in b[4];
  out y;
  y = a[0] * b[0];
  for i in 1..4 {
    y = y + a[i] * b[i];
  }
}
";

const FIR: &str = "// A filter of three taps over eight words: y[i] is the sum of h[k] * x[i + k].
// Shows a window that moves: with slots for the taps and the window, traffic grows with the number of words alone.
kernel fir {
  in x[8];
  in h[3];
  out y[6];
  for i in 0..6 {
    y[i] = h[0] * x[i];
    for k in 1..3 {
      y[i] = mad(h[k], x[i + k], y[i]);
    }
  }
}
";

const JACOBI: &str =
    "// Three steps of a stencil, each word the sum of its two neighbours, from one buffer into another and back.
// Shows a temporary that is written anew in each step. Of n words and t steps, wide windows save traffic by a factor up to S.
kernel jacobi {
  in x[6];
  out y[6];
  tmp u[6];
  for i in 0..6 {
    u[i] = x[i];
    y[i] = x[i];
  }
  for t in 0..3 {
    for i in 1..5 {
      y[i] = u[i - 1] + u[i + 1];
    }
    for i in 1..5 {
      u[i] = y[i];
    }
  }
}
";

const MATRIX_PRODUCT_2: &str = "// The product of two matrices of two rows and two columns.
// Shows three loops in one another. Of n rows, n*n*n products need at least about n*n*n / sqrt(S) transfers with S slots.
kernel matrix_product_2 {
  in a[2][2];
  in b[2][2];
  out c[2][2];
  for i in 0..2 {
    for j in 0..2 {
      c[i][j] = 0;
      for k in 0..2 {
        c[i][j] = mad(a[i][k], b[k][j], c[i][j]);
      }
    }
  }
}
";

const MATRIX_PRODUCT_3: &str = "// The product of two matrices of three rows and three columns.
// Shows how traffic grows: each input is read three times, and of n rows n times, while there are only 2*n*n inputs.
kernel matrix_product_3 {
  in a[3][3];
  in b[3][3];
  out c[3][3];
  for i in 0..3 {
    for j in 0..3 {
      c[i][j] = a[i][0] * b[0][j];
      for k in 1..3 {
        c[i][j] = c[i][j] + a[i][k] * b[k][j];
      }
    }
  }
}
";

const MATRIX_VECTOR: &str = "// The product of a matrix of four rows and four columns with a vector.
// Shows an array of two dimensions, a loop in a loop, and a vector that is read once for each row.
kernel matrix_vector {
  in a[4][4]; // row by row
  in x[4];
  out y[4];
  for i in 0..4 {
    y[i] = a[i][0] * x[0];
    for j in 1..4 {
      y[i] = y[i] + a[i][j] * x[j];
    }
  }
}
";

const POLYNOMIAL_PRODUCT: &str =
    "// The product of two polynomials of four coefficients each, least power first.
// Shows outputs that gather sums in turn: of n coefficients, n*n products from 2*n inputs.
kernel polynomial_product {
  in a[4];
  in b[4];
  out c[7];
  for i in 0..7 {
    c[i] = 0;
  }
  for i in 0..4 {
    for j in 0..4 {
      c[i + j] = mad(a[i], b[j], c[i + j]);
    }
  }
}
";

const PREFIX_SUM: &str = "// The sums of the first one, two, .. eight words of a vector.
// Shows outputs that are read again: each sum is made from the one before.
kernel prefix_sum {
  in x[8];
  out s[8];
  s[0] = x[0];
  for i in 1..8 {
    s[i] = s[i - 1] + x[i];
  }
}
";

const STENCIL: &str =
    "// A stencil of three points with the weights 1, 2, 1; the two words at the ends are copied.
// Shows a window that moves over a vector, so that most inputs are read three times.
kernel stencil {
  in x[8];
  out y[8];
  y[0] = x[0];
  for i in 1..7 {
    y[i] = x[i - 1] + 2 * x[i] + x[i + 1];
  }
  y[7] = x[7];
}
";

const STENCIL_2D: &str =
    "// A stencil of five points over a grid of five rows: four times a word, less its four neighbours.
// Shows an array of two dimensions whose words are read up to five times. With slots for two rows each is loaded once.
kernel stencil_2d {
  in g[5][5];
  out y[3][3];
  for i in 0..3 {
    for j in 0..3 {
      y[i][j] = 4 * g[i + 1][j + 1] - g[i][j + 1] - g[i + 2][j + 1] - g[i + 1][j] - g[i + 1][j + 2];
    }
  }
}
";

pub const ARRAYS: [Known; 14] = [
    Known {
        text: ALIGNMENT,
        vertices: 102,
        inputs: 8,
        degree: 2,
        bound: 9,
        costs: [Cost(3, 95), Cost(4, 60), Cost(8, 25)],
        runs: [
            Run("1 2 3 4 2 3 4 5", "y = 2\n"),
            Run(
                "9223372036854775807 -9223372036854775808 -1 1 9223372036854775807 -9223372036854775808 -1 1",
                "y = 0\n",
            ),
        ],
    },
    Known {
        text: BITONIC_SORT,
        vertices: 56,
        inputs: 8,
        degree: 2,
        bound: 16,
        costs: [Cost(3, 94), Cost(4, 80), Cost(8, 36)],
        runs: [
            Run(
                "8 -3 5 1 7 2 9 0",
                "w[0] = -3\nw[1] = 0\nw[2] = 1\nw[3] = 2\nw[4] = 5\nw[5] = 7\nw[6] = 8\nw[7] = 9\n",
            ),
            Run(
                "9223372036854775807 -9223372036854775808 -1 1 9223372036854775807 -9223372036854775808 -1 1",
                "w[0] = -9223372036854775808\nw[1] = -9223372036854775808\nw[2] = -1\nw[3] = -1\nw[4] = 1\nw[5] = 1\nw[6] = 9223372036854775807\nw[7] = 9223372036854775807\n",
            ),
        ],
    },
    Known {
        text: BUTTERFLY_8,
        vertices: 32,
        inputs: 8,
        degree: 2,
        bound: 16,
        costs: [Cost(3, 48), Cost(4, 42), Cost(8, 24)],
        runs: [
            Run(
                "1 0 1 0 0 1 1 0",
                "w[0] = 4\nw[1] = 2\nw[2] = 0\nw[3] = -2\nw[4] = 0\nw[5] = 2\nw[6] = 0\nw[7] = 2\n",
            ),
            Run(
                "9223372036854775807 -9223372036854775808 -1 1 9223372036854775807 -9223372036854775808 -1 1",
                "w[0] = -2\nw[1] = -6\nw[2] = -2\nw[3] = 2\nw[4] = 0\nw[5] = 0\nw[6] = 0\nw[7] = 0\n",
            ),
        ],
    },
    Known {
        text: CLAMP,
        vertices: 14,
        inputs: 6,
        degree: 2,
        bound: 10,
        costs: [Cost(3, 16), Cost(4, 10), Cost(8, 10)],
        runs: [
            Run(
                "-5 0 5 100 0 10",
                "y[0] = 0\ny[1] = 0\ny[2] = 5\ny[3] = 10\n",
            ),
            Run(
                "-9223372036854775808 9223372036854775807 -1 0 -1 9223372036854775806",
                "y[0] = -1\ny[1] = 9223372036854775806\ny[2] = -1\ny[3] = 0\n",
            ),
        ],
    },
    Known {
        text: DOT_PRODUCT,
        vertices: 15,
        inputs: 8,
        degree: 2,
        bound: 9,
        costs: [Cost(3, 15), Cost(4, 9), Cost(8, 9)],
        runs: [
            Run("1 2 3 4 5 6 7 8", "y = 70\n"),
            Run(
                "9223372036854775807 -9223372036854775808 1 -1 2 3 4 5",
                "y = 9223372036854775805\n",
            ),
        ],
    },
    Known {
        text: FIR,
        vertices: 29,
        inputs: 11,
        degree: 3,
        bound: 17,
        costs: [Cost(4, 37), Cost(5, 27), Cost(8, 17)],
        runs: [
            Run(
                "1 4 9 16 25 36 49 64 1 -2 1",
                "y[0] = 2\ny[1] = 2\ny[2] = 2\ny[3] = 2\ny[4] = 2\ny[5] = 2\n",
            ),
            Run(
                "9223372036854775807 -9223372036854775808 -1 1 9223372036854775807 -9223372036854775808 -1 1 9223372036854775807 -9223372036854775808 -1",
                "y[0] = 2\ny[1] = -1\ny[2] = -9223372036854775806\ny[3] = 9223372036854775807\ny[4] = 2\ny[5] = -1\n",
            ),
        ],
    },
    Known {
        text: JACOBI,
        vertices: 18,
        inputs: 6,
        degree: 2,
        bound: 10,
        costs: [Cost(3, 36), Cost(4, 26), Cost(8, 10)],
        runs: [
            Run(
                "1 2 3 4 5 6",
                "y[0] = 1\ny[1] = 13\ny[2] = 23\ny[3] = 26\ny[4] = 22\ny[5] = 6\n",
            ),
            Run(
                "9223372036854775807 -9223372036854775808 -1 1 9223372036854775807 -9223372036854775808",
                "y[0] = 9223372036854775807\ny[1] = 9223372036854775803\ny[2] = 2\ny[3] = -6\ny[4] = -9223372036854775806\ny[5] = -9223372036854775808\n",
            ),
        ],
    },
    Known {
        text: MATRIX_PRODUCT_2,
        vertices: 16,
        inputs: 8,
        degree: 3,
        bound: 12,
        costs: [Cost(4, 18), Cost(5, 15), Cost(8, 12)],
        runs: [
            Run(
                "1 2 3 4 5 6 7 8",
                "c[0][0] = 19\nc[0][1] = 22\nc[1][0] = 43\nc[1][1] = 50\n",
            ),
            Run(
                "9223372036854775807 -9223372036854775808 -1 1 9223372036854775807 -9223372036854775808 -1 1",
                "c[0][0] = -9223372036854775807\nc[0][1] = 0\nc[1][0] = -9223372036854775808\nc[1][1] = -9223372036854775807\n",
            ),
        ],
    },
    Known {
        text: MATRIX_PRODUCT_3,
        vertices: 63,
        inputs: 18,
        degree: 2,
        bound: 27,
        costs: [Cost(3, 99), Cost(4, 63), Cost(8, 39)],
        runs: [
            Run(
                "1 2 3 4 5 6 7 8 9 9 8 7 6 5 4 3 2 1",
                "c[0][0] = 30\nc[0][1] = 24\nc[0][2] = 18\nc[1][0] = 84\nc[1][1] = 69\nc[1][2] = 54\nc[2][0] = 138\nc[2][1] = 114\nc[2][2] = 90\n",
            ),
            Run(
                "9223372036854775807 -9223372036854775808 -1 1 9223372036854775807 -9223372036854775808 -1 1 9223372036854775807 -9223372036854775808 -1 1 9223372036854775807 -9223372036854775808 -1 1 9223372036854775807 -9223372036854775808",
                "c[0][0] = -1\nc[0][1] = 2\nc[0][2] = 9223372036854775807\nc[1][0] = 1\nc[1][1] = -1\nc[1][2] = -9223372036854775806\nc[2][0] = 9223372036854775806\nc[2][1] = -9223372036854775806\nc[2][2] = 9223372036854775806\n",
            ),
        ],
    },
    Known {
        text: MATRIX_VECTOR,
        vertices: 48,
        inputs: 20,
        degree: 2,
        bound: 24,
        costs: [Cost(3, 60), Cost(4, 36), Cost(8, 24)],
        runs: [
            Run(
                "1 2 3 4 5 6 7 8 9 10 11 12 13 14 15 16 1 0 -1 2",
                "y[0] = 6\ny[1] = 14\ny[2] = 22\ny[3] = 30\n",
            ),
            Run(
                "9223372036854775807 0 0 0 0 -9223372036854775808 0 0 0 0 9223372036854775807 0 0 0 0 -9223372036854775808 2 3 -1 -1",
                "y[0] = -2\ny[1] = -9223372036854775808\ny[2] = -9223372036854775807\ny[3] = -9223372036854775808\n",
            ),
        ],
    },
    Known {
        text: POLYNOMIAL_PRODUCT,
        vertices: 24,
        inputs: 8,
        degree: 3,
        bound: 15,
        costs: [Cost(4, 44), Cost(5, 33), Cost(8, 18)],
        runs: [
            Run(
                "1 1 1 1 1 2 3 4",
                "c[0] = 1\nc[1] = 3\nc[2] = 6\nc[3] = 10\nc[4] = 9\nc[5] = 7\nc[6] = 4\n",
            ),
            Run(
                "9223372036854775807 -9223372036854775808 -1 1 9223372036854775807 -9223372036854775808 -1 1",
                "c[0] = 1\nc[1] = 0\nc[2] = 2\nc[3] = -2\nc[4] = 1\nc[5] = -2\nc[6] = 1\n",
            ),
        ],
    },
    Known {
        text: PREFIX_SUM,
        vertices: 15,
        inputs: 8,
        degree: 2,
        bound: 15,
        costs: [Cost(3, 15), Cost(4, 15), Cost(8, 15)],
        runs: [
            Run(
                "1 2 3 4 5 6 7 8",
                "s[0] = 1\ns[1] = 3\ns[2] = 6\ns[3] = 10\ns[4] = 15\ns[5] = 21\ns[6] = 28\ns[7] = 36\n",
            ),
            Run(
                "9223372036854775807 1 -1 -9223372036854775808 -9223372036854775808 9223372036854775807 1 0",
                "s[0] = 9223372036854775807\ns[1] = -9223372036854775808\ns[2] = 9223372036854775807\ns[3] = -1\ns[4] = 9223372036854775807\ns[5] = -2\ns[6] = -1\ns[7] = -1\n",
            ),
        ],
    },
    Known {
        text: STENCIL,
        vertices: 26,
        inputs: 8,
        degree: 2,
        bound: 14,
        costs: [Cost(3, 19), Cost(4, 14), Cost(8, 14)],
        runs: [
            Run(
                "1 2 4 8 16 32 64 128",
                "y[0] = 1\ny[1] = 9\ny[2] = 18\ny[3] = 36\ny[4] = 72\ny[5] = 144\ny[6] = 288\ny[7] = 128\n",
            ),
            Run(
                "9223372036854775807 9223372036854775807 9223372036854775807 -9223372036854775808 -9223372036854775808 -9223372036854775808 0 0",
                "y[0] = 9223372036854775807\ny[1] = -4\ny[2] = -3\ny[3] = -1\ny[4] = 0\ny[5] = -9223372036854775808\ny[6] = -9223372036854775808\ny[7] = 0\n",
            ),
        ],
    },
    Known {
        text: STENCIL_2D,
        vertices: 70,
        inputs: 25,
        degree: 2,
        bound: 30,
        costs: [Cost(3, 48), Cost(4, 43), Cost(8, 32)],
        runs: [
            Run(
                "0 0 0 0 0 0 1 1 1 0 0 1 5 1 0 0 1 1 1 0 0 0 0 0 0",
                "y[0][0] = 2\ny[0][1] = -3\ny[0][2] = 2\ny[1][0] = -3\ny[1][1] = 16\ny[1][2] = -3\ny[2][0] = 2\ny[2][1] = -3\ny[2][2] = 2\n",
            ),
            Run(
                "9223372036854775807 -9223372036854775808 -1 1 9223372036854775807 -9223372036854775808 -1 1 9223372036854775807 -9223372036854775808 -1 1 9223372036854775807 -9223372036854775808 -1 1 9223372036854775807 -9223372036854775808 -1 1 9223372036854775807 -9223372036854775808 -1 1 9223372036854775807",
                "y[0][0] = -6\ny[0][1] = 8\ny[0][2] = -6\ny[1][0] = 8\ny[1][1] = -6\ny[1][2] = 4\ny[2][0] = -6\ny[2][1] = 4\ny[2][2] = -6\n",
            ),
        ],
    },
];

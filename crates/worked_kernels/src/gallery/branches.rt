//! The kernels of the folder `kernels/` with branches or with loops by steps.
use super::{Cost, Known, Run};

const CONVOLUTION: &str =
    "// The convolution of a picture of four rows with a mask of three, where what lies outside the picture counts as 0.
// Shows borders: branches in one another leave out what a word at the border lacks. Each word of the mask is read up to sixteen times.
kernel convolution {
  in x[4][4];
  in h[3][3];
  out y[4][4];
  for i in 0..4 {
    for j in 0..4 {
      y[i][j] = h[1][1] * x[i][j];
      for a in 0..3 {
        for b in 0..3 {
          if 3 * a + b != 4 {
            if i >= a - 1 {
              if i < a + 3 {
                if j >= b - 1 {
                  if j < b + 3 {
                    y[i][j] = mad(h[a][b], x[i + 1 - a][j + 1 - b], y[i][j]);
                  }
                }
              }
            }
          }
        }
      }
    }
  }
}
";

const ODD_EVEN_SORT: &str =
    "// Six words sorted by odd-even transposition: neighbours are exchanged, from even places on and from odd ones on in turn, six rounds in all.
// Shows loops by 2 that begin at 0 and at 1. No two exchanges of a round share a word.
kernel odd_even_sort {
  in x[6];
  out w[6];
  tmp t;
  for i in 0..6 {
    w[i] = x[i];
  }
  for r in 0..3 {
    for p in 0..2 {
      for i in p..5 by 2 {
        t = min(w[i], w[i + 1]);
        w[i + 1] = max(w[i], w[i + 1]);
        w[i] = t;
      }
    }
  }
}
";

const RED_BLACK: &str =
    "// A red-black sweep over a grid of five rows: each inner word becomes its four neighbours less three times itself, first the red words,
// which have only black neighbours, and then the black ones. This is the step by Gauss and Seidel, relaxed by the factor 4.
// Shows loops by 2, whose first column hangs on the colour and on the row: p is 0 in odd rows and 1 in even ones.
kernel red_black {
  in g[5][5];
  out u[5][5];
  for i in 0..5 {
    for j in 0..5 {
      u[i][j] = g[i][j];
    }
  }
  for colour in 0..2 {
    for p in 0..2 {
      for i in 1 + p..4 by 2 {
        for j in 1 + p + colour - 2 * p * colour..4 by 2 {
          u[i][j] = u[i - 1][j] + u[i + 1][j] + u[i][j - 1] + u[i][j + 1] - 3 * u[i][j];
        }
      }
    }
  }
}
";

const SHORTEST_PATHS: &str =
    "// The lengths of the shortest paths between four places, from those of the direct ways, by the rule of Floyd and Warshall.
// Shows branches that leave out what cannot be shorter: paths to the place itself, and paths over the first or the last place.
kernel shortest_paths {
  in a[4][4];
  out d[4][4];
  for i in 0..4 {
    for j in 0..4 {
      if i == j {
        d[i][j] = 0;
      } else {
        d[i][j] = a[i][j];
      }
    }
  }
  for k in 0..4 {
    for i in 0..4 {
      if i != k {
        for j in 0..4 {
          if j != k {
            if i != j {
              d[i][j] = min(d[i][j], d[i][k] + d[k][j]);
            }
          }
        }
      }
    }
  }
}
";

const STRIDED_SUM: &str = "// The sum of every third word of sixteen, from the first one on.
// Shows a loop with a step. The words between are inputs that no output needs, and no plan loads them.
kernel strided_sum {
  in x[16];
  out y;
  y = x[0];
  for i in 3..16 by 3 {
    y = y + x[i];
  }
}
";

const TRIANGULAR_SOLVE: &str =
    "// The x with l*x = b, where l has ones on its diagonal and zeros above it: forward substitution, column by column.
// Shows a branch that leaves half of a matrix out. What stands on the diagonal and above is never read.
kernel triangular_solve {
  in l[5][5];
  in b[5];
  out x[5];
  for i in 0..5 {
    x[i] = b[i];
  }
  for j in 0..5 {
    for i in 0..5 {
      if i > j {
        x[i] = x[i] - l[i][j] * x[j];
      }
    }
  }
}
";

const WALSH_HADAMARD: &str =
    "// The transform of Walsh and Hadamard of sixteen points, in two rounds of butterflies of four points each.
// Shows a transform by strides: h is 1 and then 4, and the blocks of a round begin 4*h words apart.
kernel walsh_hadamard {
  in x[16];
  out w[16];
  tmp s;
  tmp d;
  tmp t;
  tmp e;
  for i in 0..16 {
    w[i] = x[i];
  }
  for h in 1..5 by 3 {
    for b in 0..16 by 4 * h {
      for i in b..b + h {
        s = w[i] + w[i + h];
        d = w[i] - w[i + h];
        t = w[i + 2 * h] + w[i + 3 * h];
        e = w[i + 2 * h] - w[i + 3 * h];
        w[i] = s + t;
        w[i + 2 * h] = s - t;
        w[i + h] = d + e;
        w[i + 3 * h] = d - e;
      }
    }
  }
}
";

pub const BRANCHES: [Known; 7] = [
    Known {
        text: CONVOLUTION,
        vertices: 125,
        inputs: 25,
        degree: 3,
        bound: 41,
        costs: [Cost(4, 215), Cost(5, 195), Cost(8, 147)],
        runs: [
            Run(
                "1 2 3 4 5 6 7 8 9 10 11 12 13 14 15 16 0 1 0 0 0 2 0 0 0",
                "y[0][0] = 5\ny[0][1] = 8\ny[0][2] = 11\ny[0][3] = 14\ny[1][0] = 9\ny[1][1] = 20\ny[1][2] = 23\ny[1][3] = 26\ny[2][0] = 13\ny[2][1] = 32\ny[2][2] = 35\ny[2][3] = 38\ny[3][0] = 0\ny[3][1] = 26\ny[3][2] = 28\ny[3][3] = 30\n",
            ),
            Run(
                "9223372036854775807 -9223372036854775808 -1 1 9223372036854775807 -9223372036854775808 -1 1 9223372036854775807 -9223372036854775808 -1 1 9223372036854775807 -9223372036854775808 -1 1 9223372036854775807 -9223372036854775808 -1 1 9223372036854775807 -9223372036854775808 -1 1 9223372036854775807",
                "y[0][0] = -9223372036854775807\ny[0][1] = 1\ny[0][2] = 1\ny[0][3] = -9223372036854775808\ny[1][0] = -9223372036854775808\ny[1][1] = -9223372036854775805\ny[1][2] = 9223372036854775807\ny[1][3] = 2\ny[2][0] = -9223372036854775808\ny[2][1] = -9223372036854775805\ny[2][2] = 9223372036854775807\ny[2][3] = 2\ny[3][0] = -9223372036854775808\ny[3][1] = -9223372036854775807\ny[3][2] = 0\ny[3][3] = -9223372036854775807\n",
            ),
        ],
    },
    Known {
        text: ODD_EVEN_SORT,
        vertices: 36,
        inputs: 6,
        degree: 2,
        bound: 12,
        costs: [Cost(3, 60), Cost(4, 48), Cost(8, 12)],
        runs: [
            Run(
                "5 -2 9 0 7 1",
                "w[0] = -2\nw[1] = 0\nw[2] = 1\nw[3] = 5\nw[4] = 7\nw[5] = 9\n",
            ),
            Run(
                "9223372036854775807 -9223372036854775808 -1 1 9223372036854775807 -9223372036854775808",
                "w[0] = -9223372036854775808\nw[1] = -9223372036854775808\nw[2] = -1\nw[3] = 1\nw[4] = 9223372036854775807\nw[5] = 9223372036854775807\n",
            ),
        ],
    },
    Known {
        text: RED_BLACK,
        vertices: 70,
        inputs: 25,
        degree: 2,
        bound: 30,
        costs: [Cost(3, 53), Cost(4, 47), Cost(8, 34)],
        runs: [
            Run(
                "0 1 2 3 4 10 11 12 13 14 20 21 23 23 24 30 31 32 33 34 40 41 42 43 44",
                "u[0][0] = 0\nu[0][1] = 1\nu[0][2] = 2\nu[0][3] = 3\nu[0][4] = 4\nu[1][0] = 10\nu[1][1] = 11\nu[1][2] = 9\nu[1][3] = 13\nu[1][4] = 14\nu[2][0] = 20\nu[2][1] = 18\nu[2][2] = 19\nu[2][3] = 20\nu[2][4] = 24\nu[3][0] = 30\nu[3][1] = 31\nu[3][2] = 29\nu[3][3] = 33\nu[3][4] = 34\nu[4][0] = 40\nu[4][1] = 41\nu[4][2] = 42\nu[4][3] = 43\nu[4][4] = 44\n",
            ),
            Run(
                "9223372036854775807 -9223372036854775808 -1 1 9223372036854775807 -9223372036854775808 -1 1 9223372036854775807 -9223372036854775808 -1 1 9223372036854775807 -9223372036854775808 -1 1 9223372036854775807 -9223372036854775808 -1 1 9223372036854775807 -9223372036854775808 -1 1 9223372036854775807",
                "u[0][0] = 9223372036854775807\nu[0][1] = -9223372036854775808\nu[0][2] = -1\nu[0][3] = 1\nu[0][4] = 9223372036854775807\nu[1][0] = -9223372036854775808\nu[1][1] = 5\nu[1][2] = 11\nu[1][3] = -9223372036854775803\nu[1][4] = -9223372036854775808\nu[2][0] = -1\nu[2][1] = 11\nu[2][2] = -9223372036854775803\nu[2][3] = -9223372036854775794\nu[2][4] = -1\nu[3][0] = 1\nu[3][1] = -9223372036854775803\nu[3][2] = -9223372036854775794\nu[3][3] = 5\nu[3][4] = 1\nu[4][0] = 9223372036854775807\nu[4][1] = -9223372036854775808\nu[4][2] = -1\nu[4][3] = 1\nu[4][4] = 9223372036854775807\n",
            ),
        ],
    },
    Known {
        text: SHORTEST_PATHS,
        vertices: 68,
        inputs: 16,
        degree: 2,
        bound: 28,
        costs: [Cost(3, 99), Cost(4, 86), Cost(8, 61)],
        runs: [
            Run(
                "9 3 100 7 8 9 2 100 5 100 9 1 2 100 100 9",
                "d[0][0] = 0\nd[0][1] = 3\nd[0][2] = 5\nd[0][3] = 6\nd[1][0] = 5\nd[1][1] = 0\nd[1][2] = 2\nd[1][3] = 3\nd[2][0] = 3\nd[2][1] = 6\nd[2][2] = 0\nd[2][3] = 1\nd[3][0] = 2\nd[3][1] = 5\nd[3][2] = 7\nd[3][3] = 0\n",
            ),
            Run(
                "9223372036854775807 -9223372036854775808 -1 1 9223372036854775807 -9223372036854775808 -1 1 9223372036854775807 -9223372036854775808 -1 1 9223372036854775807 -9223372036854775808 -1 1",
                "d[0][0] = 0\nd[0][1] = -9223372036854775808\nd[0][2] = -1\nd[0][3] = 0\nd[1][0] = -2\nd[1][1] = 0\nd[1][2] = -1\nd[1][3] = -9223372036854775808\nd[2][0] = -1\nd[2][1] = -9223372036854775808\nd[2][2] = 0\nd[2][3] = -9223372036854775808\nd[3][0] = -2\nd[3][1] = -9223372036854775808\nd[3][2] = -1\nd[3][3] = 0\n",
            ),
        ],
    },
    Known {
        text: STRIDED_SUM,
        vertices: 21,
        inputs: 16,
        degree: 2,
        bound: 7,
        costs: [Cost(3, 7), Cost(4, 7), Cost(8, 7)],
        runs: [
            Run("1 2 3 4 5 6 7 8 9 10 11 12 13 14 15 16", "y = 51\n"),
            Run(
                "9223372036854775807 0 0 1 0 0 -9223372036854775808 0 0 9223372036854775807 0 0 2 0 0 -1",
                "y = -9223372036854775808\n",
            ),
        ],
    },
    Known {
        text: TRIANGULAR_SOLVE,
        vertices: 50,
        inputs: 30,
        degree: 2,
        bound: 19,
        costs: [Cost(3, 40), Cost(4, 29), Cost(8, 19)],
        runs: [
            Run(
                "9 9 9 9 9 1 9 9 9 9 2 3 9 9 9 -1 2 1 9 9 0 1 -2 3 9 1 2 3 4 5",
                "x[0] = 1\nx[1] = 1\nx[2] = -2\nx[3] = 5\nx[4] = -15\n",
            ),
            Run(
                "9223372036854775807 -9223372036854775808 -1 1 9223372036854775807 -9223372036854775808 -1 1 9223372036854775807 -9223372036854775808 -1 1 9223372036854775807 -9223372036854775808 -1 1 9223372036854775807 -9223372036854775808 -1 1 9223372036854775807 -9223372036854775808 -1 1 9223372036854775807 -9223372036854775808 -1 1 9223372036854775807 -9223372036854775808",
                "x[0] = -9223372036854775808\nx[1] = -1\nx[2] = -9223372036854775806\nx[3] = 9223372036854775806\nx[4] = -9223372036854775804\n",
            ),
        ],
    },
    Known {
        text: WALSH_HADAMARD,
        vertices: 80,
        inputs: 16,
        degree: 2,
        bound: 32,
        costs: [Cost(3, 128), Cost(4, 96), Cost(8, 54)],
        runs: [
            Run(
                "1 0 0 0 0 1 0 0 0 0 0 0 0 0 0 0",
                "w[0] = 2\nw[1] = 0\nw[2] = 2\nw[3] = 0\nw[4] = 0\nw[5] = 2\nw[6] = 0\nw[7] = 2\nw[8] = 2\nw[9] = 0\nw[10] = 2\nw[11] = 0\nw[12] = 0\nw[13] = 2\nw[14] = 0\nw[15] = 2\n",
            ),
            Run(
                "9223372036854775807 -9223372036854775808 -1 1 9223372036854775807 -9223372036854775808 -1 1 9223372036854775807 -9223372036854775808 -1 1 9223372036854775807 -9223372036854775808 -1 1",
                "w[0] = -4\nw[1] = -12\nw[2] = -4\nw[3] = 4\nw[4] = 0\nw[5] = 0\nw[6] = 0\nw[7] = 0\nw[8] = 0\nw[9] = 0\nw[10] = 0\nw[11] = 0\nw[12] = 0\nw[13] = 0\nw[14] = 0\nw[15] = 0\n",
            ),
        ],
    },
];

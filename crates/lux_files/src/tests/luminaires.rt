//! The photometric files of the tests of lamps. Lines that are passed over hold `-`.

/// 200 cd in all directions.
pub const EVEN: &str = "\
-\n-\n1\n1\n-\n2\n-\n-\n-\n-\n-\n-\n-\n-\n-\n-\n-\n-\n-\n-\n-\n-\n-\n1\n-\n1\n-\nLED\n2000\n-\n-\n-\n-\n-\n-\n-\n-\n-\n\
-\n-\n-\n-\n0\n0\n180\n100\n100\n";

/// An even luminaire with sixteen lamp sets: the k-th makes it one of k cd.
pub const SIXTEEN_SETS: &str = "\
-\n-\n1\n1\n-\n2\n-\n-\n-\n-\n-\n-\n-\n-\n-\n-\n-\n-\n-\n-\n-\n-\n-\n1\n-\n16\n1\nLED\n10\n-\n-\n-\n1\nLED\n20\n-\n-\n\
-\n1\nLED\n30\n-\n-\n-\n1\nLED\n40\n-\n-\n-\n1\nLED\n50\n-\n-\n-\n1\nLED\n60\n-\n-\n-\n1\nLED\n70\n-\n-\n-\n1\nLED\n80\n\
-\n-\n-\n1\nLED\n90\n-\n-\n-\n1\nLED\n100\n-\n-\n-\n1\nLED\n110\n-\n-\n-\n1\nLED\n120\n-\n-\n-\n1\nLED\n130\n-\n-\n-\n\
1\nLED\n140\n-\n-\n-\n1\nLED\n150\n-\n-\n-\n1\nLED\n160\n-\n-\n-\n-\n-\n-\n-\n-\n-\n-\n-\n-\n-\n0\n0\n180\n100\n100\n";

/// 9,999,999 cd in all directions.
pub const BRIGHT: &str = "\
-\n-\n1\n1\n-\n2\n-\n-\n-\n-\n-\n-\n-\n-\n-\n-\n-\n-\n-\n-\n-\n-\n-\n1\n-\n1\n1\nLED\n1000\n-\n-\n-\n-\n-\n-\n-\n-\n-\n\
-\n-\n-\n-\n0\n0\n180\n9999999\n9999999\n";

/// A millionth of a candela more.
pub const BRIGHTER: &str = "\
-\n-\n1\n1\n-\n2\n-\n-\n-\n-\n-\n-\n-\n-\n-\n-\n-\n-\n-\n-\n-\n-\n-\n1\n-\n1\n1\nLED\n1000\n-\n-\n-\n-\n-\n-\n-\n-\n-\n\
-\n-\n-\n-\n0\n0\n180\n9999999.000001\n9999999\n";

/// 3,333,333.3 cd in all directions.
pub const THIRD: &str = "\
-\n-\n1\n1\n-\n2\n-\n-\n-\n-\n-\n-\n-\n-\n-\n-\n-\n-\n-\n-\n-\n-\n-\n1\n-\n1\n1\nLED\n1000\n-\n-\n-\n-\n-\n-\n-\n-\n-\n\
-\n-\n-\n-\n0\n0\n180\n3333333.3\n3333333.3\n";

/// 6,666,666.7 cd in all directions.
pub const TWO_THIRDS: &str = "\
-\n-\n1\n1\n-\n2\n-\n-\n-\n-\n-\n-\n-\n-\n-\n-\n-\n-\n-\n-\n-\n-\n-\n1\n-\n1\n1\nLED\n1000\n-\n-\n-\n-\n-\n-\n-\n-\n-\n\
-\n-\n-\n-\n0\n0\n180\n6666666.7\n6666666.7\n";

/// A millionth of a candela less.
pub const UNDER_TWO_THIRDS: &str = "\
-\n-\n1\n1\n-\n2\n-\n-\n-\n-\n-\n-\n-\n-\n-\n-\n-\n-\n-\n-\n-\n-\n-\n1\n-\n1\n1\nLED\n1000\n-\n-\n-\n-\n-\n-\n-\n-\n-\n\
-\n-\n-\n-\n0\n0\n180\n6666666.699999\n6666666.699999\n";

/// 300 cd straight down, falling to 0 at gamma 90.
pub const FALLING: &str = "\
-\n-\n1\n1\n-\n2\n-\n-\n-\n-\n-\n-\n-\n-\n-\n-\n-\n-\n-\n-\n-\n-\n-\n1\n-\n1\n-\nLED\n1000\n-\n-\n-\n-\n-\n-\n-\n-\n-\n\
-\n-\n-\n-\n0\n0\n90\n300\n0\n";

/// 300 cd straight down, falling to 0 at gamma 30, and none beyond.
pub const NARROW: &str = "\
-\n-\n1\n1\n-\n2\n-\n-\n-\n-\n-\n-\n-\n-\n-\n-\n-\n-\n-\n-\n-\n-\n-\n1\n-\n1\n-\nLED\n1000\n-\n-\n-\n-\n-\n-\n-\n-\n-\n\
-\n-\n-\n-\n0\n0\n30\n300\n0\n";

/// 300 cd to gamma 45, and none beyond.
pub const TO_45: &str = "\
-\n-\n1\n1\n-\n2\n-\n-\n-\n-\n-\n-\n-\n-\n-\n-\n-\n-\n-\n-\n-\n-\n-\n1\n-\n1\n1\nLED\n1000\n-\n-\n-\n-\n-\n-\n-\n-\n-\n\
-\n-\n-\n-\n0\n0\n45\n300\n300\n";

/// 300 cd from gamma 45 to 90, and none before or beyond.
pub const FROM_45: &str = "\
-\n-\n1\n1\n-\n2\n-\n-\n-\n-\n-\n-\n-\n-\n-\n-\n-\n-\n-\n-\n-\n-\n-\n1\n-\n1\n1\nLED\n1000\n-\n-\n-\n-\n-\n-\n-\n-\n-\n\
-\n-\n-\n-\n0\n45\n90\n300\n300\n";

/// Half-planes from 0 to 90 stand for all others, and gamma ends at 90.
pub const QUARTER: &str = "\
-\n-\n4\n8\n-\n4\n-\n-\n-\n-\n-\n-\n-\n-\n-\n-\n-\n-\n-\n-\n-\n-\n-\n1\n-\n1\n-\nLED\n1200\n-\n-\n-\n-\n-\n-\n-\n-\n-\n\
-\n-\n-\n-\n0\n45\n90\n135\n180\n225\n270\n315\n0\n30\n60\n90\n300\n250\n120\n10\n300\n230\n90\n5\n300\n200\n60\n0\n";

/// Half-planes from 270 over 0 to 90 stand for all others, unevenly far apart.
pub const ACROSS: &str = "\
-\n-\n3\n8\n-\n4\n-\n-\n-\n-\n-\n-\n-\n-\n-\n-\n-\n-\n-\n-\n-\n-\n-\n1\n-\n1\n-\nLED\n900\n-\n-\n-\n-\n-\n-\n-\n-\n-\n\
-\n-\n-\n-\n0\n50\n90\n130\n180\n210\n270\n330\n0\n40\n70\n110\n200\n180\n90\n20\n200\n150\n100\n10\n200\n240\n130\n30\n\
200\n260\n70\n5\n200\n170\n60\n0\n";

/// Half-planes all round, the last again at 360 with values that aren't used.
pub const ROUND: &str = "\
IESNA:LM-63-2002\nTILT=NONE\n1 -1 2 4 5 1 2 0 0 0\n0.9 1 0\n0 35 65 180\n0 90 180 270 360\n100 90 40 10\n100 70 20 0\n\
100 120 80 5\n100 60 50 15\n9 9 9 9\n";

/// 100, 200, 300 and 400 cd in the half-planes at C 0, 90, 180 and 270, and the last again at 360 with values that aren't used.
pub const QUADRANTS: &str = "\
IESNA:LM-63-2002\n[TEST] none\nTILT=NONE\n1 -1 1 2 5 1 2 0 0 0\n1 1 0\n0 180\n0 90 180 270 360\n100 100\n200 200\n300 300\n\
400 400\n999 999\n";

/// A luminaire for offices: its half-planes have 15 degrees between them, its gammas 5, and it is dark above gamma 90.
pub const OFFICE: &str = "\
-\n-\n4\n24\n-\n37\n-\n-\n-\n-\n-\n-\n-\n-\n-\n-\n-\n-\n-\n-\n-\n-\n-\n1\n-\n1\n-\nLED\n4000\n-\n-\n-\n-\n-\n-\n-\n-\n\
-\n-\n-\n-\n-\n0\n15\n30\n45\n60\n75\n90\n105\n120\n135\n150\n165\n180\n195\n210\n225\n240\n255\n270\n285\n300\n315\n\
330\n345\n0\n5\n10\n15\n20\n25\n30\n35\n40\n45\n50\n55\n60\n65\n70\n75\n80\n85\n90\n95\n100\n105\n110\n115\n120\n125\n\
130\n135\n140\n145\n150\n155\n160\n165\n170\n175\n180\n270\n255\n240\n225\n210\n195\n180\n165\n150\n135\n120\n105\n90\n\
75\n60\n45\n30\n15\n0\n0\n0\n0\n0\n0\n0\n0\n0\n0\n0\n0\n0\n0\n0\n0\n0\n0\n0\n270\n256\n242\n228\n214\n200\n186\n172\n\
158\n144\n128\n112\n96\n80\n64\n48\n32\n16\n0\n0\n0\n0\n0\n0\n0\n0\n0\n0\n0\n0\n0\n0\n0\n0\n0\n0\n0\n270\n257\n244\n\
231\n218\n205\n192\n179\n166\n153\n136\n119\n102\n85\n68\n51\n34\n17\n0\n0\n0\n0\n0\n0\n0\n0\n0\n0\n0\n0\n0\n0\n0\n0\n\
0\n0\n0\n270\n258\n246\n234\n222\n210\n198\n186\n174\n162\n144\n126\n108\n90\n72\n54\n36\n18\n0\n0\n0\n0\n0\n0\n0\n0\n\
0\n0\n0\n0\n0\n0\n0\n0\n0\n0\n0\n270\n259\n248\n237\n226\n215\n204\n193\n182\n171\n152\n133\n114\n95\n76\n57\n38\n19\n\
0\n0\n0\n0\n0\n0\n0\n0\n0\n0\n0\n0\n0\n0\n0\n0\n0\n0\n0\n270\n260\n250\n240\n230\n220\n210\n200\n190\n180\n160\n140\n\
120\n100\n80\n60\n40\n20\n0\n0\n0\n0\n0\n0\n0\n0\n0\n0\n0\n0\n0\n0\n0\n0\n0\n0\n0\n270\n261\n252\n243\n234\n225\n216\n\
207\n198\n189\n168\n147\n126\n105\n84\n63\n42\n21\n0\n0\n0\n0\n0\n0\n0\n0\n0\n0\n0\n0\n0\n0\n0\n0\n0\n0\n0\n";

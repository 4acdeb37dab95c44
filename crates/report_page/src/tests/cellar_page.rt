//! A room and its page, which `expected/tests.py` writes by `expected/page.py`. STYLE stands where the page has its style sheet.

/// The layout.
pub(super) const CELLAR: &str = "version = 1
[room]
size = [6000, 6000, 3000]
[[lamp]]
at = [3000, 3000, 3000]
candela = 0
[task]
from = [0, 0]
to = [300, 450]
height = 0
points = [2, 3]
[limits]
average_millilux = 1000
uniformity_permille = 500
";

/// The name of its file.
pub(super) const CELLAR_NAME: &str = "地下室-Υπόγειο.toml";

/// Its page.
pub(super) const CELLAR_PAGE: &str = "<!DOCTYPE html>
<html xmlns='http://www.w3.org/1999/xhtml' lang='en'>
<head>
<meta charset='utf-8'/>
<meta name='viewport' content='width=device-width, initial-scale=1'/>
<title>地下室-Υπόγειο.toml - Lux</title>
<style>
STYLE</style>
</head>
<body>
<h1>Light in 地下室-Υπόγειο.toml</h1>
<p>Illuminance at 6 task points, 0.000 m above the floor of a room of 6.000 by 6.000 m, 3.000 m high, with 1 lamp and 0 boxes.</p>
<dl>
<div><dt>Average</dt><dd>0.00 to 0.04 lx</dd></div>
<div><dt>Uniformity</dt><dd>none: the average may be 0</dd></div>
<div class='missed'><dt>Average asked for: at least 1.000 lx</dt><dd>&#10007; missed</dd></div>
<div class='undecided'><dt>Uniformity asked for: at least 0.500</dt><dd>? undecided</dd></div>
</dl>
<figure>
<div class='scroll'><svg class='light' viewBox='0 0 6748 6561' role='img' aria-label='Plan with the illuminance at each task point'>
<defs><pattern id='covered' width='187' height='187' patternUnits='userSpaceOnUse' patternTransform='rotate(45)'><path d='M0 0V187' stroke='#555' stroke-width='62'/></pattern></defs>
<g transform='translate(374 93)'>
<rect class='floor' x='0' y='0' width='6000' height='6000'/>
<rect class='s0' x='0' y='5850' width='150' height='150'><title>point 0 0 at 0.075, 0.075 m: 0.00 to 0.00 lx</title></rect>
<rect class='s0' x='150' y='5850' width='150' height='150'><title>point 1 0 at 0.225, 0.075 m: 0.00 to 0.01 lx</title></rect>
<rect class='s0' x='0' y='5700' width='150' height='150'><title>point 0 1 at 0.075, 0.225 m: 0.02 to 0.03 lx</title></rect>
<rect class='s0' x='150' y='5700' width='150' height='150'><title>point 1 1 at 0.225, 0.225 m: 0.04 to 0.05 lx</title></rect>
<rect class='covered' x='0' y='5550' width='150' height='150'><title>point 0 2 at 0.075, 0.375 m: covered by a box</title></rect>
<rect class='s0' x='150' y='5550' width='150' height='150'><title>point 1 2 at 0.225, 0.375 m: 0.06 to 0.07 lx</title></rect>
<rect class='wall' x='0' y='0' width='6000' height='6000'/>
<path class='bar' d='M0 6187h1000'/><text class='label' font-size='149' x='1093' y='6233'>1.000 m</text>
</g>
</svg></div>
<figcaption>Light: each cell belongs to the task point in its middle, and its colour goes by the lower end of its interval. The cells are too small for the intervals: each stands in the tooltip of its cell and in the table of the task points. Thin lines are boxes, and hatched cells are covered by one. x runs to the right, y upward.</figcaption>
<ul class='legend'>
<li class='s0 w'>0</li>
<li class='s1 w'>5</li>
<li class='s2 w'>10</li>
<li class='s3 w'>20</li>
<li class='s4 w'>30</li>
<li class='s5 w'>50</li>
<li class='s6 w'>75</li>
<li class='s7 w'>100</li>
<li class='s8 k'>150</li>
<li class='s9 k'>200</li>
<li class='s10 k'>300</li>
<li class='s11 k'>500</li>
<li class='s12 k'>750</li>
<li class='s13 k'>1000</li>
<li class='s14 k'>1500</li>
<li class='s15 k'>2000</li>
<li class='s16 k'>3000</li>
<li class='s17 k'>5000</li>
<li class='hatch'>covered</li>
</ul>
<p class='note'>Each colour from its number of lux up to the next.</p>
</figure>
<figure>
<div class='scroll'><svg class='things' viewBox='0 0 6748 6561' role='img' aria-label='Plan of the boxes, the lamps and the task area'>
<g transform='translate(374 93)'>
<rect class='floor' x='0' y='0' width='6000' height='6000'/>
<rect class='task' x='0' y='5550' width='300' height='450'/>
<rect class='wall' x='0' y='0' width='6000' height='6000'/>
<g transform='translate(3000 3000)'><title>lamp 0 at 3.000, 3.000 m, 3.000 m above the floor, aim -z, turn 0</title>
<path class='shine' d='M-0-0h0v0h-0z'/>
<circle class='lamp' r='149'/><text class='lampname' font-size='149' y='49'>0</text></g>
<text class='label middle' font-size='187' x='3000' y='6280'>x: 6.000 m</text>
<text class='label middle' font-size='187' transform='translate(-140 3000) rotate(-90)'>y: 6.000 m</text>
</g>
</svg></div>
<figcaption>Things: boxes have the height of their tops in metres. Circles are lamps with their numbers, and a grey rectangle is what a lamp shines from. An arrow is the aim of a lamp that is aimed along the floor, a second circle marks a lamp that is aimed upward, and a line out of a circle the half-plane C 0 of a lamp that is turned. The dashed line is the task area. x runs to the right, y upward.</figcaption>
</figure>
<h2>Lamps</h2>
<div class='scroll'><table>
<thead><tr><th>Lamp</th><th>x, m</th><th>y, m</th><th>z, m</th><th>Shines by</th><th>Aim</th><th>Turn</th><th>Size, m</th><th>Parts</th><th>Maintenance</th></tr></thead>
<tbody>
<tr><td>0</td><td>3.000</td><td>3.000</td><td>3.000</td><td class='name'>0 cd in all directions</td><td>-z, down</td><td>0&#176;</td><td>0.000 by 0.000</td><td>1 by 1</td><td>1.000</td></tr>
</tbody>
</table></div>
<h2>Surfaces</h2>
<div class='scroll'><table>
<thead><tr><th>Surface</th><th>Reflectance</th></tr></thead>
<tbody>
<tr><td>Floor</td><td>0.000</td></tr>
<tr><td>Ceiling</td><td>0.000</td></tr>
<tr><td>Wall x = 0</td><td>0.000</td></tr>
<tr><td>Far x wall</td><td>0.000</td></tr>
<tr><td>Wall y = 0</td><td>0.000</td></tr>
<tr><td>Far y wall</td><td>0.000</td></tr>
</tbody>
</table></div>
<p>Patches: 1320, with edges of at most 0.600 m. Task points: 6, in 2 columns by 3 rows.</p>
<h2>Task points</h2>
<p class='note'>Columns run along x and rows along y, both from 0; the ends of each interval are in lux.</p>
<div class='points'>
<div class='scroll'><table>
<thead><tr><th>Column</th><th>Row</th><th>From</th><th>To</th></tr></thead>
<tbody>
<tr><td>0</td><td>0</td><td>0.00</td><td>0.00</td></tr>
<tr><td>1</td><td>0</td><td>0.00</td><td>0.01</td></tr>
<tr><td>0</td><td>1</td><td>0.02</td><td>0.03</td></tr>
<tr><td>1</td><td>1</td><td>0.04</td><td>0.05</td></tr>
<tr><td>0</td><td>2</td><td colspan='2'>covered</td></tr>
<tr><td>1</td><td>2</td><td>0.06</td><td>0.07</td></tr>
</tbody>
</table></div>
</div>
<section class='account'>
<h2>What the numbers are, and what is proved</h2>
<p><b>Proved:</b> each printed interval meets, at every depth from 2, the enclosure of the exact value that the radiosity equations of this room give, and where these enclosures narrow to one number it holds that number; none is wider than stated amounts allow. No digit is off by rounding, by an iteration that stopped early or by floating point. A limit is met where the whole printed interval reaches it, missed where the whole interval lies below it, and else undecided; it is the designer's number and no standard's.</p>
<p><b>Not proved:</b> that the layout describes the real room, that a real lamp shines as its number or its file says, and that the equations are the room's light.</p>
<p>The equations are a model: surfaces are cut into patches with edges of at most 0.600 m, each of one illuminance, which hand light on between their middles and reflect it evenly in all directions. Where lamps hang clear of the surfaces, averages came within 3 per cent of a path tracer's with coarse patches, and within 1 per cent with finer ones. Where a lamp shines on a surface from less than about a patch edge away, the numbers depend on where the patches lie: compare them with those of smaller patches.</p>
<p>Checked with <code>rattle-kit-13f logic dac8208d650f15bf</code>. To repeat it, with the room's file and its photometric files in one folder: <code>lux report 地下室-Υπόγειο.toml</code> prints the same intervals, <code>lux certify 地下室-Υπόγειο.toml &gt; claim.csv</code> writes bounds of the light of every patch, and <code>lux check 地下室-Υπόγειο.toml claim.csv</code> checks them without solving.</p>
</section>
</body>
</html>
";

//! A room and its page, which `expected/tests.py` writes by `expected/page.py`. STYLE stands where the page has its style sheet.

/// The layout.
pub(super) const OFFICE: &str = "version = 2
[room]
size = [4000, 3000, 2800]
reflect = [200, 700, 500, 510, 520, 530]
patch = 1000
[[box]]
lo = [100, 200, 0]
hi = [1900, 1400, 2000]
reflect = 310
[[lamp]]
at = [2000, 1500, 2800]
file = \"<script>alert('x')</script> & \\\"q\\\".ldt\"
set = 2
turn = 90
maintenance = 805
size = [300, 1200]
split = [1, 4]
[[lamp]]
at = [0, 1600, 1500]
candela = 905
aim = \"+x\"
[[lamp]]
at = [3000, 700, 2700]
file = \"büro.ies\"
[task]
from = [0, 0]
to = [4000, 3000]
height = 750
points = [2, 2]
[limits]
average_millilux = 300000
uniformity_permille = 600
";

/// The name of its file.
pub(super) const OFFICE_NAME: &str = "Büro & <Halle> \"7\" 'A'.toml";

/// Its page.
pub(super) const OFFICE_PAGE: &str = "<!DOCTYPE html>
<html xmlns='http://www.w3.org/1999/xhtml' lang='en'>
<head>
<meta charset='utf-8'/>
<meta name='viewport' content='width=device-width, initial-scale=1'/>
<title>Büro &amp; &lt;Halle&gt; &quot;7&quot; &#39;A&#39;.toml - Lux</title>
<style>
STYLE</style>
</head>
<body>
<h1>Light in Büro &amp; &lt;Halle&gt; &quot;7&quot; &#39;A&#39;.toml</h1>
<p>Illuminance at 4 task points, 0.750 m above the floor of a room of 4.000 by 3.000 m, 2.800 m high, with 3 lamps and 1 box.</p>
<dl>
<div><dt>Average</dt><dd>396.99 to 397.02 lx</dd></div>
<div><dt>Uniformity</dt><dd>0.589 to 0.590</dd></div>
<div class='met'><dt>Average asked for: at least 300.000 lx</dt><dd>&#10003; met</dd></div>
<div class='missed'><dt>Uniformity asked for: at least 0.600</dt><dd>&#10007; missed</dd></div>
</dl>
<figure>
<div class='scroll'><svg class='light' viewBox='0 0 4500 3375' role='img' aria-label='Plan with the illuminance at each task point'>
<defs><pattern id='covered' width='125' height='125' patternUnits='userSpaceOnUse' patternTransform='rotate(45)'><path d='M0 0V125' stroke='#555' stroke-width='41'/></pattern></defs>
<g transform='translate(250 62)'>
<rect class='floor' x='0' y='0' width='4000' height='3000'/>
<rect class='covered' x='0' y='1500' width='2000' height='1500'><title>point 0 0 at 1.000, 0.750 m: covered by a box</title></rect>
<rect class='s10' x='2000' y='1500' width='2000' height='1500'><title>point 1 0 at 3.000, 0.750 m: 301.26 to 301.27 lx</title></rect>
<rect class='s10' x='0' y='0' width='2000' height='1500'><title>point 0 1 at 1.000, 2.250 m: 489.72 to 489.74 lx</title></rect>
<rect class='s10' x='2000' y='0' width='2000' height='1500'><title>point 1 1 at 3.000, 2.250 m: 400.00 to 400.05 lx</title></rect>
<rect class='halo' x='100' y='1600' width='1800' height='1200'/><rect class='edge' x='100' y='1600' width='1800' height='1200'/>
<rect class='wall' x='0' y='0' width='4000' height='3000'/>
<g class='values' font-size='125'>
<text class='s10 k' x='3000' y='2225'>301.26<tspan x='3000' dy='150'>301.27</tspan></text>
<text class='s10 k' x='1000' y='725'>489.72<tspan x='1000' dy='150'>489.74</tspan></text>
<text class='s10 k' x='3000' y='725'>400.00<tspan x='3000' dy='150'>400.05</tspan></text>
</g>
<path class='bar' d='M0 3125h1000'/><text class='label' font-size='100' x='1062' y='3156'>1.000 m</text>
</g>
</svg></div>
<figcaption>Light: each cell belongs to the task point in its middle and holds the lower and the upper end of its interval in lux; its colour goes by the lower end. Thin lines are boxes, and hatched cells are covered by one. x runs to the right, y upward.</figcaption>
<ul class='legend'>
<li class='s0 w'>0</li>
<li class='s1 w'>5</li>
<li class='s2 w'>10</li>
<li class='s3 w'>20</li>
<li class='s4 w'>30</li>
<li class='s5 w'>50</li>
<li class='s6 w'>75</li>
<li class='s7 w'>100</li>
<li class='s8 k'>150</li>
<li class='s9 k'>200</li>
<li class='s10 k'>300</li>
<li class='s11 k'>500</li>
<li class='s12 k'>750</li>
<li class='s13 k'>1000</li>
<li class='s14 k'>1500</li>
<li class='s15 k'>2000</li>
<li class='s16 k'>3000</li>
<li class='s17 k'>5000</li>
<li class='hatch'>covered</li>
</ul>
<p class='note'>Each colour from its number of lux up to the next.</p>
</figure>
<figure>
<div class='scroll'><svg class='things' viewBox='0 0 4500 3375' role='img' aria-label='Plan of the boxes, the lamps and the task area'>
<g transform='translate(250 62)'>
<rect class='floor' x='0' y='0' width='4000' height='3000'/>
<rect class='box' x='100' y='1600' width='1800' height='1200'><title>box 0: from 0.000 to 2.000 m above the floor</title></rect>
<text class='boxname' font-size='93' transform='translate(131 2769)'>2.000</text>
<rect class='task' x='0' y='0' width='4000' height='3000'/>
<rect class='wall' x='0' y='0' width='4000' height='3000'/>
<g transform='translate(2000 1500)'><title>lamp 0 at 2.000, 1.500 m, 2.800 m above the floor, aim -z, turn 90</title>
<path class='shine' d='M-150-600h300v1200h-300z'/>
<path class='aim' transform='rotate(270)' d='M0 0H200'/>
<circle class='lamp' r='100'/><text class='lampname' font-size='100' y='33'>0</text></g>
<g transform='translate(0 1400)'><title>lamp 1 at 0.000, 1.600 m, 1.500 m above the floor, aim +x, turn 0</title>
<path class='shine' d='M-0-0h0v0h-0z'/>
<path class='aim' transform='rotate(0)' d='M0 0H200l-33-33m33 33l-33 33'/>
<circle class='lamp' r='100'/><text class='lampname' font-size='100' y='33'>1</text></g>
<g transform='translate(3000 2300)'><title>lamp 2 at 3.000, 0.700 m, 2.700 m above the floor, aim -z, turn 0</title>
<path class='shine' d='M-0-0h0v0h-0z'/>
<circle class='lamp' r='100'/><text class='lampname' font-size='100' y='33'>2</text></g>
<text class='label middle' font-size='125' x='2000' y='3187'>x: 4.000 m</text>
<text class='label middle' font-size='125' transform='translate(-93 1500) rotate(-90)'>y: 3.000 m</text>
</g>
</svg></div>
<figcaption>Things: boxes have the height of their tops in metres. Circles are lamps with their numbers, and a grey rectangle is what a lamp shines from. An arrow is the aim of a lamp that is aimed along the floor, a second circle marks a lamp that is aimed upward, and a line out of a circle the half-plane C 0 of a lamp that is turned. The dashed line is the task area. x runs to the right, y upward.</figcaption>
</figure>
<h2>Lamps</h2>
<div class='scroll'><table>
<thead><tr><th>Lamp</th><th>x, m</th><th>y, m</th><th>z, m</th><th>Shines by</th><th>Aim</th><th>Turn</th><th>Size, m</th><th>Parts</th><th>Maintenance</th></tr></thead>
<tbody>
<tr><td>0</td><td>2.000</td><td>1.500</td><td>2.800</td><td class='name'>&lt;script&gt;alert(&#39;x&#39;)&lt;/script&gt; &amp; &quot;q&quot;.ldt, set 2</td><td>-z, down</td><td>90&#176;</td><td>0.300 by 1.200</td><td>1 by 4</td><td>0.805</td></tr>
<tr><td>1</td><td>0.000</td><td>1.600</td><td>1.500</td><td class='name'>905 cd in all directions</td><td>+x</td><td>0&#176;</td><td>0.000 by 0.000</td><td>1 by 1</td><td>1.000</td></tr>
<tr><td>2</td><td>3.000</td><td>0.700</td><td>2.700</td><td class='name'>büro.ies, set 1</td><td>-z, down</td><td>0&#176;</td><td>0.000 by 0.000</td><td>1 by 1</td><td>1.000</td></tr>
</tbody>
</table></div>
<h2>Photometric files</h2>
<div class='scroll'><table>
<thead><tr><th>File</th><th>Set</th><th>Its table</th></tr></thead>
<tbody>
<tr><td class='name'>&lt;script&gt;alert(&#39;x&#39;)&lt;/script&gt; &amp; &quot;q&quot;.ldt</td><td>2</td><td><code>planes 1 gammas 2 greatest 905.00 905.00
</code></td></tr>
<tr><td class='name'>büro.ies</td><td>1</td><td><code>planes 1 gammas 2 greatest 1000.00 1000.00
</code></td></tr>
</tbody>
</table></div>
<p class='note'>A file's table has so many half-planes C (planes), each with so many angles gamma, and its greatest intensity lies between the last two numbers, in candela.</p>
<h2>Surfaces</h2>
<div class='scroll'><table>
<thead><tr><th>Surface</th><th>Reflectance</th></tr></thead>
<tbody>
<tr><td>Floor</td><td>0.200</td></tr>
<tr><td>Ceiling</td><td>0.700</td></tr>
<tr><td>Wall x = 0</td><td>0.500</td></tr>
<tr><td>Far x wall</td><td>0.510</td></tr>
<tr><td>Wall y = 0</td><td>0.520</td></tr>
<tr><td>Far y wall</td><td>0.530</td></tr>
</tbody>
</table></div>
<p>Patches: 72, with edges of at most 1.000 m. Task points: 4, in 2 columns by 2 rows.</p>
<h2>Boxes</h2>
<div class='scroll'><table>
<thead><tr><th>Box</th><th>x, m</th><th>y, m</th><th>z, m</th><th>Reflectance</th></tr></thead>
<tbody>
<tr><td>0</td><td>0.100 to 1.900</td><td>0.200 to 1.400</td><td>0.000 to 2.000</td><td>0.310</td></tr>
</tbody>
</table></div>
<section class='account'>
<h2>What the numbers are, and what is proved</h2>
<p><b>Proved:</b> each printed interval meets, at every depth from 2, the enclosure of the exact value that the radiosity equations of this room give, and where these enclosures narrow to one number it holds that number; none is wider than stated amounts allow. No digit is off by rounding, by an iteration that stopped early or by floating point. A limit is met where the whole printed interval reaches it, missed where the whole interval lies below it, and else undecided; it is the designer's number and no standard's.</p>
<p><b>Not proved:</b> that the layout describes the real room, that a real lamp shines as its number or its file says, and that the equations are the room's light.</p>
<p>The equations are a model: surfaces are cut into patches with edges of at most 1.000 m, each of one illuminance, which hand light on between their middles and reflect it evenly in all directions. Where lamps hang clear of the surfaces, averages came within 3 per cent of a path tracer's with coarse patches, and within 1 per cent with finer ones. Where a lamp shines on a surface from less than about a patch edge away, the numbers depend on where the patches lie: compare them with those of smaller patches.</p>
<p>Checked with <code>rattle-kit-13f logic dac8208d650f15bf</code>. To repeat it, with the room's file and its photometric files in one folder: <code>lux report Büro &amp; &lt;Halle&gt; &quot;7&quot; &#39;A&#39;.toml</code> prints the same intervals, <code>lux certify Büro &amp; &lt;Halle&gt; &quot;7&quot; &#39;A&#39;.toml &gt; claim.csv</code> writes bounds of the light of every patch, and <code>lux check Büro &amp; &lt;Halle&gt; &quot;7&quot; &#39;A&#39;.toml claim.csv</code> checks them without solving.</p>
</section>
</body>
</html>
";

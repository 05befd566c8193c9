//! The markup of the desk's page.
ghost use Rattle.std.specs.Prelude.{◌≡◌};
ghost use Rattle.page_files.specs.Files.{markup_file};

/// The markup of the desk's page, whole (docs/manual/page.md).
pub fn desk_markup() -> &'static [u8]
    ensures { result.now ≡ markup_file }
{
    MARKUP
}

/// The markup as it is: HTML between the quotes, which has no quote and no backslash.
pub static MARKUP: &[u8] = b"<!doctype html>
<!-- The page of the desk: the frame of its five views, which desk.js fills. -->
<html lang='en'>
<head>
<meta charset='utf-8'>
<meta name='viewport' content='width=device-width, initial-scale=1'>
<meta name='color-scheme' content='light dark'>
<title>Desk</title>
<link rel='stylesheet' href='/desk.css'>
<script type='module' src='/desk.js'></script>
</head>
<body>
<header class='top'>
  <h1>Desk</h1>
  <nav aria-label='Views'>
    <a href='#pool' data-view='pool'>Pool</a>
    <a href='#sets' data-view='sets'>Data sets</a>
    <a href='#try' data-view='try'>Try a request</a>
    <a href='#deck' data-view='deck'>Deck</a>
    <a href='#answers' data-view='answers'>Answers</a>
  </nav>
  <p class='standing' id='standing' role='status'>Asking the desk.</p>
  <button type='button' class='quiet' id='keys-button' title='Keys'>Keys</button>
</header>
<p class='gone' id='gone' role='alert' hidden></p>
<noscript><p class='gone'>This page needs JavaScript. The same is told by curl: see the manual, smsd.md.</p></noscript>
<main>

<section id='view-pool' aria-labelledby='pool-title' hidden>
  <div class='bar'>
    <h2 id='pool-title'>Pool</h2>
    <p class='total' id='pool-total'></p>
    <form id='pool-find' class='find' role='search'>
      <label>Volume <input id='pool-volser' size='8' maxlength='6' autocomplete='off' spellcheck='false' placeholder='VOL001'></label>
      <button>Find</button>
    </form>
  </div>
  <p class='note' id='pool-note' hidden></p>
  <div id='pool-groups'></div>
</section>

<section id='view-sets' aria-labelledby='sets-title' hidden>
  <div class='bar'>
    <h2 id='sets-title'>Data sets</h2>
    <form id='sets-find' class='find' role='search'>
      <label>Mask <input id='sets-mask' size='26' maxlength='64' autocomplete='off' spellcheck='false' placeholder='PAY.**'></label>
      <button>Search</button>
    </form>
  </div>
  <p class='hint'>% is one byte, * bytes of one qualifier, ** any qualifiers. Without a mask all are shown.</p>
  <p class='note' id='sets-note' hidden></p>
  <div id='sets-list'></div>
</section>

<section id='view-set' aria-labelledby='set-title' hidden>
  <div class='bar'>
    <h2 id='set-title'>Data set</h2>
    <a class='back' id='set-back' href='#sets'>Back</a>
  </div>
  <p class='note' id='set-note' hidden></p>
  <div id='set-detail'></div>
</section>

<section id='view-try' aria-labelledby='try-title' hidden>
  <div class='bar'><h2 id='try-title'>Try a request</h2></div>
  <div class='sides'>
    <form id='try-form' class='panel' autocomplete='off'>
      <div class='fields' id='try-fields'></div>
      <details>
        <summary>More operands</summary>
        <div class='fields' id='try-more'></div>
      </details>
      <p class='buttons'>
        <button class='main' id='try-classify'>Classify</button>
        <button type='button' id='try-allocate'>Allocate ...</button>
      </p>
      <p class='hint'>Classify asks what the routines would give, and changes nothing. Allocate asks the
        desk, after a question, and is entered in its journal.</p>
    </form>
    <div id='try-result' aria-live='polite'></div>
  </div>
  <div id='try-path'></div>
</section>

<section id='view-deck' aria-labelledby='deck-title' hidden>
  <div class='bar'>
    <h2 id='deck-title'>Deck</h2>
    <p class='total' id='deck-total'>Paste a deck, drop its file here, or open it.</p>
  </div>
  <div class='sides even'>
    <form id='deck-form' class='panel'>
      <div class='editor' id='deck-editor'>
        <pre class='gutter' id='deck-lines' aria-hidden='true'>1</pre>
        <textarea id='deck-text' rows='24' wrap='off' spellcheck='false' aria-label='Text of the deck'></textarea>
      </div>
      <p class='buttons'>
        <button class='main' id='deck-check'>Check</button>
        <button type='button' id='deck-activate'>Activate ...</button>
        <button type='button' id='deck-open'>Open a file ...</button>
        <button type='button' id='deck-active'>Take the active deck</button>
        <input type='file' id='deck-file' accept='.toml,.txt,text/plain' hidden>
      </p>
    </form>
    <div id='deck-result' aria-live='polite'>
      <p class='hint'>Check says what an activation of this deck would be answered, and changes nothing.</p>
    </div>
  </div>
</section>

<section id='view-answers' aria-labelledby='answers-title' hidden>
  <div class='bar'>
    <h2 id='answers-title'>Answers</h2>
    <form id='answers-find' class='find' role='search'>
      <label>Job <input id='answers-job' size='9' maxlength='8' autocomplete='off' spellcheck='false'></label>
      <label>Number <input id='answers-number' size='11' maxlength='10' inputmode='numeric' autocomplete='off'></label>
      <label>Code <input id='answers-code' size='5' maxlength='3' autocomplete='off' spellcheck='false'></label>
      <button type='reset'>All</button>
    </form>
  </div>
  <p class='hint' id='answers-hint'>The last 200 entries of the journal, newest first.</p>
  <p class='note' id='answers-note' hidden></p>
  <div id='answers-list'></div>
</section>

</main>

<dialog id='question' aria-labelledby='question-title'>
  <form method='dialog'>
    <h2 id='question-title'></h2>
    <div id='question-text'></div>
    <p class='buttons'>
      <button value='yes' class='main' id='question-yes'>Yes</button>
      <button value='no' id='question-no'>Cancel</button>
    </p>
  </form>
</dialog>

<dialog id='keys' aria-labelledby='keys-title'>
  <form method='dialog'>
    <h2 id='keys-title'>Keys</h2>
    <dl class='keys'>
      <dt><kbd>1</kbd> to <kbd>5</kbd></dt><dd>the views</dd>
      <dt><kbd>/</kbd></dt><dd>the first field of the view</dd>
      <dt><kbd>Tab</kbd>, <kbd>Enter</kbd></dt><dd>go on, open</dd>
      <dt><kbd>Left</kbd>, <kbd>Right</kbd></dt><dd>the extents and gaps of a strip, one by one</dd>
      <dt><kbd>Home</kbd>, <kbd>End</kbd></dt><dd>the first and the last of a strip</dd>
      <dt><kbd>Enter</kbd> on an extent</dt><dd>its data set</dd>
      <dt><kbd>Esc</kbd></dt><dd>close a question, or leave a data set</dd>
      <dt><kbd>?</kbd></dt><dd>this list</dd>
    </dl>
    <p class='buttons'><button class='main'>Close</button></p>
  </form>
</dialog>
</body>
</html>
";
